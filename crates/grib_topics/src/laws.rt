//! Nothing that a run can name lacks its text.

ghost use Rattle.std.specs.Prelude.{◌≡◌, true, map, drop};
ghost use Rattle.std.specs.List.{list_any};
ghost use Rattle.grib_base.specs.declared.fault.Reason.{Reason};
ghost use Rattle.grib_base.specs.Reason as reasons;
ghost use Rattle.grib_keys.specs.Keys as keys;
ghost use Rattle.grib_keys.specs.Keys1 as first_keys;
ghost use Rattle.grib_reasons.specs.declared.demotion.Demotion.{Demotion};
ghost use Rattle.grib_reasons.specs.declared.loss.Loss.{Loss};
ghost use Rattle.grib_reasons.specs.Demotions as demotions;
ghost use Rattle.grib_reasons.specs.Losses as losses;
ghost use Rattle.grib_topics.specs.Topics.{is_text_on, first_word, key_texts, first_key_texts, refusal_texts, loss_texts, demotion_texts};

/// The texts on keys of each edition, behind the one that leads them, are on all keys, in their order.
pub fn each_key_has_its_text()
    ensures second { map first_word (drop 1 key_texts) ≡ map keys.name_of keys.keys }
    ensures first { map first_word (drop 1 first_key_texts) ≡ map first_keys.name1_of first_keys.keys1 }
{}

/// Each reason of a refusal has a text.
pub fn each_reason_has_a_text()
    ensures { (reason : Reason) → list_any (is_text_on (reasons.name_of reason)) refusal_texts ≡ true }
{}

/// Each loss of a migration, and each of a demotion, has a text.
pub fn each_loss_has_a_text()
    ensures migrated { (loss : Loss) → list_any (is_text_on (losses.name_of loss)) loss_texts ≡ true }
    ensures demoted { (loss : Demotion) → list_any (is_text_on (demotions.name_of loss)) demotion_texts ≡ true }
{}
