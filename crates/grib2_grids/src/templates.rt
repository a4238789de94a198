//! The grid definition templates (WMO-No. 306, Volume I.2, FM 92 GRIB edition 2, templates 3.0 to
//! 3.40).
//!
//! Each field has the number of its octets as they stand. Angles are in 10^-6 degree where the basic
//! angle is 0, with the sign in the first bit. Lengths of the grid are in 10^-3 metre. All ones mean
//! that a number is missing.

/// Template 3.0, latitude and longitude.
#[derive(Clone, Copy, Debug, PartialEq, Eq)]
pub struct LatLon {
    /// The shape of the earth (code table 3.2): octet 15.
    pub shape: u8,
    /// The scale factor of the radius of a spherical earth: octet 16.
    pub radius_scale: u8,
    /// The scaled radius, in metres: octets 17-20.
    pub radius: u32,
    /// The scale factor of the major axis of an oblate earth: octet 21.
    pub major_scale: u8,
    /// The scaled major axis: octets 22-25.
    pub major: u32,
    /// The scale factor of the minor axis: octet 26.
    pub minor_scale: u8,
    /// The scaled minor axis: octets 27-30.
    pub minor: u32,
    /// The number of points along a parallel: octets 31-34.
    pub ni: u32,
    /// The number of points along a meridian: octets 35-38.
    pub nj: u32,
    /// The basic angle of the initial production domain: octets 39-42.
    pub basic: u32,
    /// The subdivisions of the basic angle: octets 43-46.
    pub subdivisions: u32,
    /// The latitude of the first grid point: octets 47-50.
    pub la1: u32,
    /// The longitude of the first grid point: octets 51-54.
    pub lo1: u32,
    /// Resolution and component flags (flag table 3.3): octet 55.
    pub flags: u8,
    /// The latitude of the last grid point: octets 56-59.
    pub la2: u32,
    /// The longitude of the last grid point: octets 60-63.
    pub lo2: u32,
    /// The increment along a parallel: octets 64-67.
    pub di: u32,
    /// The increment along a meridian: octets 68-71.
    pub dj: u32,
    /// The scanning mode (flag table 3.4): octet 72.
    pub scanning: u8,
}

/// What template 3.1, rotated latitude and longitude, has after the octets of template 3.0.
#[derive(Clone, Copy, Debug, PartialEq, Eq)]
pub struct Rotation {
    /// The latitude of the southern pole of projection: octets 73-76.
    pub pole_la: u32,
    /// The longitude of the southern pole of projection: octets 77-80.
    pub pole_lo: u32,
    /// The angle of rotation: octets 81-84.
    pub angle: u32,
}

/// Template 3.10, Mercator.
#[derive(Clone, Copy, Debug, PartialEq, Eq)]
pub struct Mercator {
    /// The shape of the earth (code table 3.2): octet 15.
    pub shape: u8,
    /// The scale factor of the radius of a spherical earth: octet 16.
    pub radius_scale: u8,
    /// The scaled radius, in metres: octets 17-20.
    pub radius: u32,
    /// The scale factor of the major axis of an oblate earth: octet 21.
    pub major_scale: u8,
    /// The scaled major axis: octets 22-25.
    pub major: u32,
    /// The scale factor of the minor axis: octet 26.
    pub minor_scale: u8,
    /// The scaled minor axis: octets 27-30.
    pub minor: u32,
    /// The number of points along a parallel: octets 31-34.
    pub ni: u32,
    /// The number of points along a meridian: octets 35-38.
    pub nj: u32,
    /// The latitude of the first grid point: octets 39-42.
    pub la1: u32,
    /// The longitude of the first grid point: octets 43-46.
    pub lo1: u32,
    /// Resolution and component flags (flag table 3.3): octet 47.
    pub flags: u8,
    /// The latitude at which the cylinder intersects the earth and the lengths hold: octets 48-51.
    pub lad: u32,
    /// The latitude of the last grid point: octets 52-55.
    pub la2: u32,
    /// The longitude of the last grid point: octets 56-59.
    pub lo2: u32,
    /// The scanning mode (flag table 3.4): octet 60.
    pub scanning: u8,
    /// The orientation of the grid: octets 61-64.
    pub orientation: u32,
    /// The length along a parallel: octets 65-68.
    pub di: u32,
    /// The length along a meridian: octets 69-72.
    pub dj: u32,
}

/// Template 3.20, polar stereographic.
#[derive(Clone, Copy, Debug, PartialEq, Eq)]
pub struct Polar {
    /// The shape of the earth (code table 3.2): octet 15.
    pub shape: u8,
    /// The scale factor of the radius of a spherical earth: octet 16.
    pub radius_scale: u8,
    /// The scaled radius, in metres: octets 17-20.
    pub radius: u32,
    /// The scale factor of the major axis of an oblate earth: octet 21.
    pub major_scale: u8,
    /// The scaled major axis: octets 22-25.
    pub major: u32,
    /// The scale factor of the minor axis: octet 26.
    pub minor_scale: u8,
    /// The scaled minor axis: octets 27-30.
    pub minor: u32,
    /// The number of points along the x-axis: octets 31-34.
    pub ni: u32,
    /// The number of points along the y-axis: octets 35-38.
    pub nj: u32,
    /// The latitude of the first grid point: octets 39-42.
    pub la1: u32,
    /// The longitude of the first grid point: octets 43-46.
    pub lo1: u32,
    /// Resolution and component flags (flag table 3.3): octet 47.
    pub flags: u8,
    /// The latitude at which the lengths hold: octets 48-51.
    pub lad: u32,
    /// The longitude of the meridian along which latitude increases with y: octets 52-55.
    pub lov: u32,
    /// The length along the x-axis: octets 56-59.
    pub dx: u32,
    /// The length along the y-axis: octets 60-63.
    pub dy: u32,
    /// The projection centre (flag table 3.5): octet 64.
    pub centre: u8,
    /// The scanning mode (flag table 3.4): octet 65.
    pub scanning: u8,
}

/// Template 3.30, Lambert conformal.
#[derive(Clone, Copy, Debug, PartialEq, Eq)]
pub struct Lambert {
    /// The shape of the earth (code table 3.2): octet 15.
    pub shape: u8,
    /// The scale factor of the radius of a spherical earth: octet 16.
    pub radius_scale: u8,
    /// The scaled radius, in metres: octets 17-20.
    pub radius: u32,
    /// The scale factor of the major axis of an oblate earth: octet 21.
    pub major_scale: u8,
    /// The scaled major axis: octets 22-25.
    pub major: u32,
    /// The scale factor of the minor axis: octet 26.
    pub minor_scale: u8,
    /// The scaled minor axis: octets 27-30.
    pub minor: u32,
    /// The number of points along the x-axis: octets 31-34.
    pub ni: u32,
    /// The number of points along the y-axis: octets 35-38.
    pub nj: u32,
    /// The latitude of the first grid point: octets 39-42.
    pub la1: u32,
    /// The longitude of the first grid point: octets 43-46.
    pub lo1: u32,
    /// Resolution and component flags (flag table 3.3): octet 47.
    pub flags: u8,
    /// The latitude at which the lengths hold: octets 48-51.
    pub lad: u32,
    /// The longitude of the meridian along which latitude increases with y: octets 52-55.
    pub lov: u32,
    /// The length along the x-axis: octets 56-59.
    pub dx: u32,
    /// The length along the y-axis: octets 60-63.
    pub dy: u32,
    /// The projection centre (flag table 3.5): octet 64.
    pub centre: u8,
    /// The scanning mode (flag table 3.4): octet 65.
    pub scanning: u8,
    /// The first latitude from the pole at which the cone cuts the earth: octets 66-69.
    pub latin1: u32,
    /// The second latitude from the pole at which the cone cuts the earth: octets 70-73.
    pub latin2: u32,
    /// The latitude of the southern pole of projection: octets 74-77.
    pub pole_la: u32,
    /// The longitude of the southern pole of projection: octets 78-81.
    pub pole_lo: u32,
}

/// Template 3.40, Gaussian latitude and longitude.
#[derive(Clone, Copy, Debug, PartialEq, Eq)]
pub struct Gaussian {
    /// The shape of the earth (code table 3.2): octet 15.
    pub shape: u8,
    /// The scale factor of the radius of a spherical earth: octet 16.
    pub radius_scale: u8,
    /// The scaled radius, in metres: octets 17-20.
    pub radius: u32,
    /// The scale factor of the major axis of an oblate earth: octet 21.
    pub major_scale: u8,
    /// The scaled major axis: octets 22-25.
    pub major: u32,
    /// The scale factor of the minor axis: octet 26.
    pub minor_scale: u8,
    /// The scaled minor axis: octets 27-30.
    pub minor: u32,
    /// The number of points along a parallel: octets 31-34.
    pub ni: u32,
    /// The number of points along a meridian: octets 35-38.
    pub nj: u32,
    /// The basic angle of the initial production domain: octets 39-42.
    pub basic: u32,
    /// The subdivisions of the basic angle: octets 43-46.
    pub subdivisions: u32,
    /// The latitude of the first grid point: octets 47-50.
    pub la1: u32,
    /// The longitude of the first grid point: octets 51-54.
    pub lo1: u32,
    /// Resolution and component flags (flag table 3.3): octet 55.
    pub flags: u8,
    /// The latitude of the last grid point: octets 56-59.
    pub la2: u32,
    /// The longitude of the last grid point: octets 60-63.
    pub lo2: u32,
    /// The increment along a parallel: octets 64-67.
    pub di: u32,
    /// The number of parallels between a pole and the equator: octets 68-71.
    pub n: u32,
    /// The scanning mode (flag table 3.4): octet 72.
    pub scanning: u8,
}

/// What all templates share: octets 15 to 38.
#[derive(Clone, Copy)]
pub(crate) struct Common {
    pub(crate) shape: u8,
    pub(crate) radius_scale: u8,
    pub(crate) radius: u32,
    pub(crate) major_scale: u8,
    pub(crate) major: u32,
    pub(crate) minor_scale: u8,
    pub(crate) minor: u32,
    pub(crate) ni: u32,
    pub(crate) nj: u32,
}

/// A template of this type: what all templates share, and its own numbers.
macro_rules! template {
    ($template:ident, $common:ident, { $($field:ident: $value:expr),* $(,)? }) => {
        $template {
            shape: $common.shape,
            radius_scale: $common.radius_scale,
            radius: $common.radius,
            major_scale: $common.major_scale,
            major: $common.major,
            minor_scale: $common.minor_scale,
            minor: $common.minor,
            ni: $common.ni,
            nj: $common.nj,
            $($field: $value,)*
        }
    };
}

pub(crate) use template;

/// What all templates share, of a template.
macro_rules! common_of {
    ($template:ident) => {
        Common {
            shape: $template.shape,
            radius_scale: $template.radius_scale,
            radius: $template.radius,
            major_scale: $template.major_scale,
            major: $template.major,
            minor_scale: $template.minor_scale,
            minor: $template.minor,
            ni: $template.ni,
            nj: $template.nj,
        }
    };
}

pub(crate) use common_of;
