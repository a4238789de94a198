//! The names that ecCodes and wgrib2 give to what keys and commands are here.

ghost use Rattle.std.specs.Prelude.{◌≡◌};
ghost use Rattle.grib_topics.specs.Elsewhere as elsewhere;

/// The keys that say what ecCodes has by this name, empty where it is none of the common ones.
#[tactic(auto, unfolding(crate::specs::Elsewhere::keys_for))]
pub(crate) fn keys_for(name: &str) -> &'static str
    ensures { result.now ≡ elsewhere.keys_for name.now }
{
    match name {
        "shortName" | "paramId" => "discipline, category and number",
        "parameterCategory" => "category",
        "parameterNumber" => "number",
        "level" => "surface1, surface1Scale and surface1Value",
        "typeOfLevel" | "typeOfFirstFixedSurface" => "surface1",
        "scaleFactorOfFirstFixedSurface" => "surface1Scale",
        "scaledValueOfFirstFixedSurface" => "surface1Value",
        "typeOfSecondFixedSurface" => "surface2",
        "scaleFactorOfSecondFixedSurface" => "surface2Scale",
        "scaledValueOfSecondFixedSurface" => "surface2Value",
        "step" | "stepRange" | "startStep" => "timeUnit and forecastTime",
        "endStep" => "timeUnit, forecastTime, rangeUnit and rangeLength",
        "dataDate" => "year, month and day",
        "dataTime" => "hour and minute",
        "validityDate" | "validityTime" => "year, month, day, hour, timeUnit and forecastTime",
        "perturbationNumber" | "member" => "ensembleNumber",
        "numberOfForecastsInEnsemble" => "ensembleMembers",
        "productDefinitionTemplateNumber" => "productTemplate",
        "gridType" | "gridDefinitionTemplateNumber" => "gridTemplate",
        "packingType" | "dataRepresentationTemplateNumber" => "packing",
        "indicatorOfParameter" => "Parameter",
        "indicatorOfTypeOfLevel" => "LevelType",
        _ => "",
    }
}

/// The command that does what other programs have by this name, empty where it is none of the common ones.
#[tactic(auto, unfolding(crate::specs::Elsewhere::command_for))]
pub(crate) fn command_for(name: &str) -> &'static str
    ensures { result.now ≡ elsewhere.command_for name.now }
{
    match name {
        "get" | "grib_get" => "keys",
        "ls" | "grib_ls" | "wgrib" | "wgrib2" => "list",
        "count" | "grib_count" => "check",
        "copy" | "grib_copy" => "filter",
        "grib_set" => "set",
        "grib_dump" | "grib_get_data" | "data" => "dump",
        "grib_compare" | "diff" => "compare",
        "convert" => "migrate",
        _ => "",
    }
}
