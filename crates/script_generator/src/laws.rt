// The definitions, tied to worked values: functions that do nothing, whose clauses are computed.
ghost use Rattle.std.specs.Prelude.{◌≡◌, ◌<◌, ◌≤◌, ◌^◌, ℕ, true, ◌∷◌, ◌++◌, [], Some, slice_get, replicate, length};
ghost use Rattle.script_reader.specs.Rules.{keeps_rules};
ghost use Rattle.script_generator.specs.Draws.{draw};
ghost use Rattle.script_generator.specs.Generated.{book_rows, generated};
ghost use Rattle.script_generator.specs.Working.{work};
ghost use Rattle.script_generator.specs.Samples.{one_load};

/// The first draws of seed 1, and the one row of its phonebook of size 1.
pub fn draws_of_one()
    ensures first { draw 1 1 ≡ 16838 }
    ensures second { draw 1 2 ≡ 5758 }
    ensures third { draw 1 3 ≡ 10113 }
    ensures row { slice_get (book_rows 1 1) 0
        ≡ Some ((0x50 ∷ 0x31 ∷ []) ++ replicate 12 0xFF ++ (6 ∷ 0x81 ∷ 0x38 ∷ 0x15 ∷ 0x07 ∷ 0x29 ∷ 0x96 ∷ [])
        ++ replicate 7 0xFF) }
{}

/// The first draws of seed 7: its first row is an entry, whose number begins 684.
pub fn draws_of_seven()
    ensures first { draw 7 1 ≡ 19564 }
    ensures second { draw 7 2 ≡ 9806 }
    ensures third { draw 7 3 ≡ 10868 }
    ensures fourth { draw 7 4 ≡ 22674 }
{}

/// The work of the script of one load.
#[tactic(auto, unfolding(crate::specs::Working::whole_reading, crate::specs::Working::disturbances_of))]
pub fn work_of_one_load()
    ensures { work one_load ≡ 2304 }
{}

/// A generated script keeps every rule.
pub fn generated_keeps()
    ensures { (seed size : ℕ) → seed < 2 ^ 32 → 1 ≤ size → size ≤ 250 → keeps_rules (generated seed size) ≡ true }
{}
