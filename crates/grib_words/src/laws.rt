//! The definition of the reading, tried on command lines, and on what `keys` prints.

ghost use Rattle.std.specs.Prelude.{◌≡◌, ◌≤◌, ◌<◌, ℕ, true, false, List, [], ◌∷◌, All, codes, pos, neg_ℤ, Some, None, Ok, Err};
ghost use Rattle.grib_keys.specs.declared.key.Key.{Key};
ghost use Rattle.grib_keys.specs.declared.key.Key.TheVariants.{Centre, ForecastTime, Surface1Value};
ghost use Rattle.grib_keys.specs.declared.condition.Value.{Value};
ghost use Rattle.grib_keys.specs.declared.condition.Value.TheVariants.{Number, Missing};
ghost use Rattle.grib_keys.specs.declared.condition.Change.{Change};
ghost use Rattle.grib_keys.specs.declared.wanted.Choice.TheVariants.{One, Between, From, UpTo};
ghost use Rattle.grib_keys.specs.Words.{word_of};
ghost use Rattle.grib_keys.specs.declared.key1.Key1.TheVariants.{Level};
ghost use Rattle.grib1_select.specs.declared.condition.Change1.{Change1};
ghost use Rattle.grib2_message.specs.Fields.{field_count};
ghost use Rattle.grib2_message.specs.Message.{IsAnyMessage};
ghost use Rattle.grib_select.specs.Bounds.{IsWithin64};
ghost use Rattle.grib_select.specs.Values.{key_value_of, fulfils_all};
ghost use Rattle.grib_words.specs.declared.command.Command.TheVariants.{Check, List as ListFields, Keys, Dump, Coordinates, Filter, Split, Set, Repack, Migrate, Demote, Crop, Compare, Help, Version};
ghost use Rattle.grib_words.specs.Reading.{command_named, reading};
ghost use Rattle.grib_words.specs.Words.{change, change_of, change1_of, wanted, wanted_of, wanted1, wanted1_of, conditions_of};

/// Command lines that are not valid, with the place of the first argument that is not.
pub fn unread_lines()
    ensures no_words { reading [] ≡ Err 0 }
    ensures no_command { reading (codes "pack" ∷ codes "to=0" ∷ []) ≡ Err 0 }
    ensures wrong_value { reading (codes "repack" ∷ codes "to=1" ∷ codes "order" ∷ []) ≡ Err 1 }
    ensures name_again { reading (codes "repack" ∷ codes "to=0" ∷ codes "to=0" ∷ []) ≡ Err 2 }
    ensures order_needed { reading (codes "repack" ∷ codes "to=3" ∷ []) ≡ Err 2 }
    ensures order_too_many { reading (codes "repack" ∷ codes "order=1" ∷ codes "to=2" ∷ []) ≡ Err 3 }
    ensures least_of_order { reading (codes "repack" ∷ codes "to=least" ∷ codes "order=1" ∷ []) ≡ Err 3 }
    ensures least_made { reading (codes "make" ∷ codes "to=least" ∷ []) ≡ Err 1 }
    ensures fixed_key { reading (codes "set" ∷ codes "year=2025" ∷ codes "points=3" ∷ []) ≡ Err 2 }
    ensures too_small { reading (codes "filter" ∷ codes "la1=-9223372036854775809" ∷ []) ≡ Err 1 }
    ensures help_on_one { reading (codes "help" ∷ codes "list" ∷ []) ≡ Err 1 }
    ensures short_dash { reading (codes "-help" ∷ []) ≡ Err 0 }
    ensures dashed_command { reading (codes "--list" ∷ []) ≡ Err 0 }
    ensures other_local { reading (codes "migrate" ∷ codes "params=t" ∷ codes "local=wmo" ∷ []) ≡ Err 2 }
    ensures no_surfaces { reading (codes "migrate" ∷ codes "params=t" ∷ codes "surfaces=" ∷ []) ≡ Err 2 }
    ensures surfaces_alone { reading (codes "migrate" ∷ codes "surfaces=s" ∷ []) ≡ Err 2 }
    ensures demoted_surfaces { reading (codes "demote" ∷ codes "params=t" ∷ codes "surfaces=s" ∷ []) ≡ Err 2 }
    ensures one_earth { reading (codes "demote" ∷ codes "params=t" ∷ codes "earth=2" ∷ []) ≡ Err 2 }
    ensures refused_skip { reading (codes "check" ∷ codes "refused=skip" ∷ []) ≡ Err 1 }
    ensures refused_again { reading (codes "list" ∷ codes "refused=pass" ∷ codes "refused=pass" ∷ []) ≡ Err 2 }
    ensures none_kept { reading (codes "keys" ∷ codes "kept=pass" ∷ []) ≡ Err 1 }
    ensures dump_copied { reading (codes "dump" ∷ codes "decimals=3" ∷ codes "kept=copy" ∷ []) ≡ Err 2 }
    ensures kept_twice { reading (codes "rescan" ∷ codes "kept=copy" ∷ codes "kept=pass" ∷ []) ≡ Err 2 }
    ensures no_key { reading (codes "filter" ∷ codes "refused=pass" ∷ []) ≡ Err 2 }
    ensures no_key_set { reading (codes "set" ∷ codes "kept=copy" ∷ codes "refused=pass" ∷ []) ≡ Err 3 }
    ensures made_past { reading (codes "make" ∷ codes "refused=pass" ∷ []) ≡ Err 1 }
    ensures wrong_order { reading (codes "filter" ∷ codes "centre=98" ∷ codes "forecastTime=6..-6" ∷ []) ≡ Err 2 }
    ensures no_ends { reading (codes "filter" ∷ codes "forecastTime=.." ∷ []) ≡ Err 1 }
    ensures missing_end { reading (codes "filter" ∷ codes "surface1Value=0..missing" ∷ []) ≡ Err 1 }
    ensures empty_element { reading (codes "filter" ∷ codes "centre=7,,98" ∷ []) ≡ Err 1 }
    ensures empty_last { reading (codes "filter" ∷ codes "centre=7," ∷ []) ≡ Err 1 }
    ensures wrong_element { reading (codes "filter" ∷ codes "centre=7,x" ∷ []) ≡ Err 1 }
    ensures no_key_but { reading (codes "filter" ∷ codes "refused!=pass" ∷ []) ≡ Err 1 }
    ensures list_set { reading (codes "set" ∷ codes "centre=7,98" ∷ []) ≡ Err 1 }
    ensures range_set { reading (codes "set" ∷ codes "centre=7..98" ∷ []) ≡ Err 1 }
    ensures but_set { reading (codes "set" ∷ codes "centre!=7" ∷ []) ≡ Err 1 }
    ensures set_again { reading (codes "set" ∷ codes "centre=7" ∷ codes "centre=98" ∷ []) ≡ Err 2 }
    ensures profile_other { reading (codes "list" ∷ codes "profile=closed" ∷ []) ≡ Err 1 }
    ensures profile_again { reading (codes "keys" ∷ codes "profile=open" ∷ codes "profile=open" ∷ []) ≡ Err 2 }
    ensures profile_made { reading (codes "make" ∷ codes "profile=open" ∷ []) ≡ Err 1 }
    ensures profile_alone { reading (codes "filter" ∷ codes "profile=open" ∷ []) ≡ Err 2 }
    ensures no_column { reading (codes "list" ∷ codes "with=" ∷ []) ≡ Err 1 }
    ensures no_such_column { reading (codes "list" ∷ codes "names=t" ∷ codes "with=centre,level" ∷ []) ≡ Err 2 }
    ensures shown_by_list { reading (codes "list" ∷ codes "show=centre" ∷ []) ≡ Err 1 }
    ensures listed_by_keys { reading (codes "keys" ∷ codes "with=centre" ∷ []) ≡ Err 1 }
    ensures no_table { reading (codes "keys" ∷ codes "names=" ∷ []) ≡ Err 1 }
    ensures name_alone { reading (codes "filter" ∷ codes "name=TMP" ∷ codes "centre=7" ∷ []) ≡ Err 3 }
    ensures names_alone { reading (codes "filter" ∷ codes "names=t" ∷ codes "centre=7" ∷ []) ≡ Err 3 }
    ensures no_name { reading (codes "filter" ∷ codes "names=t" ∷ codes "name=TMP,,HGT" ∷ []) ≡ Err 2 }
    ensures long_name { reading (codes "filter" ∷ codes "name=A23456789_123456789_123456789_123" ∷ codes "names=t" ∷ []) ≡ Err 1 }
    ensures other_edition { reading (codes "filter" ∷ codes "Centre=7" ∷ codes "Level=1..5" ∷ codes "centre=7" ∷ codes "year" ∷ []) ≡ Err 3 }
    ensures name_of_other { reading (codes "filter" ∷ codes "Centre=7" ∷ codes "name=TMP" ∷ codes "names=t" ∷ []) ≡ Err 2 }
    ensures set_other_edition { reading (codes "set" ∷ codes "centre=7" ∷ codes "dates=valid" ∷ codes "Centre=7" ∷ []) ≡ Err 3 }
    ensures set_missing { reading (codes "set" ∷ codes "Centre=missing" ∷ []) ≡ Err 1 }
    ensures set_flags { reading (codes "set" ∷ codes "Flags=128" ∷ []) ≡ Err 1 }
    ensures set_scale { reading (codes "set" ∷ codes "Centre=7" ∷ codes "DecimalScale=0" ∷ []) ≡ Err 2 }
    ensures dates_alone { reading (codes "set" ∷ codes "dates=valid" ∷ []) ≡ Err 2 }
    ensures other_dates { reading (codes "set" ∷ codes "centre=7" ∷ codes "dates=any" ∷ []) ≡ Err 2 }
    ensures no_place { reading (codes "dump" ∷ codes "place=no" ∷ []) ≡ Err 1 }
    ensures valued_places { reading (codes "coordinates" ∷ codes "as=f4" ∷ []) ≡ Err 1 }
    ensures one_edge { reading (codes "crop" ∷ codes "north=60" ∷ codes "south=50" ∷ codes "west=-10" ∷ []) ≡ Err 4 }
    ensures no_edges { reading (codes "crop" ∷ codes "south=50" ∷ codes "west=-10" ∷ codes "east=0" ∷ []) ≡ Err 4 }
    ensures south_first { reading (codes "crop" ∷ codes "north=50" ∷ codes "south=60" ∷ codes "west=-10" ∷ codes "east=0" ∷ []) ≡ Err 5 }
    ensures too_far_north { reading (codes "crop" ∷ codes "north=90.000001" ∷ []) ≡ Err 1 }
    ensures too_far_east { reading (codes "crop" ∷ codes "lat=0" ∷ codes "lon=361" ∷ []) ≡ Err 2 }
    ensures both_boxes { reading (codes "crop" ∷ codes "i0=0" ∷ codes "i1=0" ∷ codes "j0=0" ∷ codes "j1=0" ∷ codes "east=0" ∷ []) ≡ Err 6 }
    ensures box_and_place { reading (codes "crop" ∷ codes "lat=0" ∷ codes "lon=0" ∷ codes "i0=0" ∷ []) ≡ Err 4 }
    ensures lat_alone { reading (codes "crop" ∷ codes "lat=52.5" ∷ []) ≡ Err 2 }
    ensures one_edition { reading (codes "split" ∷ codes "out=p" ∷ codes "editions=1" ∷ []) ≡ Err 2 }
    ensures editions_alone { reading (codes "split" ∷ codes "editions=both" ∷ []) ≡ Err 2 }
    ensures refused_once { reading (codes "filter" ∷ codes "refused=pass" ∷ codes "centre=7" ∷ codes "refused=copy" ∷ []) ≡ Err 3 }
{}

/// Command lines that are read.
pub fn read_lines()
    ensures order { reading (codes "repack" ∷ codes "order=2" ∷ codes "to=3" ∷ []) ≡ Ok Repack }
    ensures equals { reading (codes "migrate" ∷ codes "params==" ∷ codes "local=keep" ∷ []) ≡ Ok Migrate }
    ensures surfaces { reading (codes "migrate" ∷ codes "surfaces=s" ∷ codes "local=ecmwf" ∷ codes "params=t" ∷ []) ≡ Ok Migrate }
    ensures least { reading (codes "repack" ∷ codes "to=least" ∷ []) ≡ Ok Repack }
    ensures demotion { reading (codes "demote" ∷ codes "earth=any" ∷ codes "params=t" ∷ []) ≡ Ok Demote }
    ensures past_first { reading (codes "repack" ∷ codes "kept=copy" ∷ codes "to=2" ∷ codes "refused=pass" ∷ []) ≡ Ok Repack }
    ensures past_keys { reading (codes "filter" ∷ codes "refused=pass" ∷ codes "centre=98" ∷ []) ≡ Ok Filter }
    ensures past_dump { reading (codes "dump" ∷ codes "kept=pass" ∷ codes "decimals=3" ∷ []) ≡ Ok Dump }
    ensures opened { reading (codes "check" ∷ codes "profile=open" ∷ []) ≡ Ok Check }
    ensures opened_first { reading (codes "repack" ∷ codes "profile=open" ∷ codes "to=2" ∷ codes "kept=copy" ∷ []) ≡ Ok Repack }
    ensures opened_last { reading (codes "set" ∷ codes "centre=7" ∷ codes "refused=pass" ∷ codes "profile=open" ∷ []) ≡ Ok Set }
    ensures help { reading (codes "help" ∷ []) ≡ Ok Help }
    ensures version { reading (codes "version" ∷ []) ≡ Ok Version }
    ensures dashed_help { reading (codes "--help" ∷ []) ≡ Ok Help }
    ensures dashed_version { reading (codes "--version" ∷ []) ≡ Ok Version }
    ensures asked_again { reading (codes "filter" ∷ codes "centre=7,98" ∷ codes "centre!=7" ∷ codes "centre=0.." ∷ []) ≡ Ok Filter }
    ensures columns { reading (codes "list" ∷ codes "with=at,octets,centre,Centre" ∷ codes "names=t" ∷ []) ≡ Ok ListFields }
    ensures shown { reading (codes "keys" ∷ codes "show=forecastTime" ∷ codes "profile=open" ∷ []) ≡ Ok Keys }
    ensures named { reading (codes "filter" ∷ codes "names=t" ∷ codes "name=TMP,2t,a_-B" ∷ codes "centre!=7" ∷ []) ≡ Ok Filter }
    ensures named_alone { reading (codes "filter" ∷ codes "name=TMP" ∷ codes "names=t" ∷ []) ≡ Ok Filter }
    ensures first_asked { reading (codes "filter" ∷ codes "Centre=98" ∷ codes "Level!=1..5" ∷ codes "Centre=7,98" ∷ []) ≡ Ok Filter }
    ensures first_set { reading (codes "set" ∷ codes "dates=valid" ∷ codes "Centre=98" ∷ codes "Level=0" ∷ []) ≡ Ok Set }
    ensures dated { reading (codes "set" ∷ codes "month=2" ∷ codes "dates=valid" ∷ []) ≡ Ok Set }
    ensures placed { reading (codes "dump" ∷ codes "place=yes" ∷ codes "decimals=2" ∷ []) ≡ Ok Dump }
    ensures coordinates { reading (codes "coordinates" ∷ codes "kept=pass" ∷ codes "profile=open" ∷ []) ≡ Ok Coordinates }
    ensures in_degrees { reading (codes "crop" ∷ codes "west=350" ∷ codes "east=10.5" ∷ codes "south=-1" ∷ codes "north=-0.5" ∷ []) ≡ Ok Crop }
    ensures nearest { reading (codes "crop" ∷ codes "lon=-0.125" ∷ codes "kept=copy" ∷ codes "lat=51.5" ∷ []) ≡ Ok Crop }
    ensures compared { reading (codes "compare" ∷ codes "quiet=yes" ∷ codes "with=a b" ∷ codes "sections=all" ∷ codes "profile=open" ∷ []) ≡ Ok Compare }
    ensures both_editions { reading (codes "split" ∷ codes "editions=both" ∷ codes "out=p" ∷ []) ≡ Ok Split }
    ensures asked_not { reading (codes "filter" ∷ codes "kept=pass" ∷ codes "surface1Value!=missing" ∷ []) ≡ Ok Filter }
{}

/// What arguments of `filter` ask.
pub fn wanted_words()
    ensures list { wanted_of (codes "surface1Value=50000,missing")
        ≡ Some (wanted false Surface1Value (One (Number (pos 50000)) ∷ One Missing ∷ [])) }
    ensures range { wanted_of (codes "forecastTime=-6..24")
        ≡ Some (wanted false ForecastTime (Between (neg_ℤ (pos 6)) (pos 24) ∷ [])) }
    ensures open { wanted_of (codes "forecastTime=..0,12..") ≡ Some (wanted false ForecastTime (UpTo (pos 0) ∷ From (pos 12) ∷ [])) }
    ensures others { wanted_of (codes "centre!=7") ≡ Some (wanted true Centre (One (Number (pos 7)) ∷ [])) }
    ensures first { wanted1_of (codes "Level!=1..5") ≡ Some (wanted1 true Level (Between (pos 1) (pos 5) ∷ [])) }
    ensures cased { wanted1_of (codes "centre=7") ≡ None }
    ensures marked_twice { wanted_of (codes "centre!!=7") ≡ None }
    ensures three_dots { wanted_of (codes "forecastTime=0...6") ≡ None }
{}

/// An argument that gives a key a value asks, as a condition, for this value.
pub fn one_value_is_asked()
    ensures { (word : List ℕ) (c : Change) → change_of word ≡ Some c
        → wanted_of word ≡ Some (wanted false c.key (One c.value ∷ [])) }
{}

/// An argument that gives a key of edition 1 a number asks, as a condition, for this number.
pub fn one_number_is_asked()
    ensures { (word : List ℕ) (c : Change1) → change1_of word ≡ Some c
        → wanted1_of word ≡ Some (wanted1 false c.key (One (Number c.value) ∷ [])) }
{}

/// A key with a value within 64 bits, as it is printed, is read as this key with this value. So each argument that `keys`
/// prints of a field after its edition is read as a condition that the field fulfils: `filter` with the argument picks
/// the field.
pub fn printed_words_pick_their_field()
    ensures read { (key : Key) (value : Value) → IsWithin64 value
        → change_of (word_of (change key value)) ≡ Some (change key value) }
    ensures picked { (message : List ℕ) (i : ℕ) (key : Key) (value : Value) → IsAnyMessage message
        → All (λ octet. octet < 256) message → 1 ≤ i → i ≤ field_count message
        → key_value_of message i key ≡ Some value
        → fulfils_all message i (conditions_of (word_of (change key value) ∷ [])) ≡ true }
{}
