// A law of refusals, over their definitions alone.
ghost use Rattle.std.specs.Prelude.{◌≡◌, ◌<◌, ◌≤◌, Some, true};
ghost use Rattle.std.specs.List.{AllByRecursion};
ghost use Rattle.text_core.specs.Prelude.{first_that_holds};
ghost use Rattle.site_core.specs.Prelude.{Section};
ghost use Rattle.office_commands.specs.Prelude.{refusal_number};
ghost use Rattle.office_commands.specs.declared.refusal.Refusal.{Refusal};
ghost use Rattle.office_commands.specs.declared.refusal.Refusal.TheVariants.{OtherBody};
ghost use Rattle.office_commands.specs.declared.command.Change.{Change};
ghost use Rattle.office_rules.specs.Prelude.{refusals, Sight};

/// Where several refusals of a command hold, the one that is answered has the lowest number. Each has
/// a number above those of the retry rule, 11 and 12, which is judged before.
pub fn lowest_number_is_answered()
    ensures lowest { (s : Section) (v : Sight) (c : Change) (r : Refusal)
        → first_that_holds (refusals s v c) ≡ Some r
        → AllByRecursion (λ other. other.0 ≡ true → refusal_number r ≤ refusal_number other.1) (refusals s v c) }
    ensures after_retry { (s : Section) (v : Sight) (c : Change)
        → AllByRecursion (λ other. refusal_number OtherBody < refusal_number other.1) (refusals s v c) }
{}
