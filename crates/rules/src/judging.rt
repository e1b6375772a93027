// The rules, tied to worked reports: functions that do nothing, whose clauses are computed.
ghost use Rattle.std.specs.Prelude.{◌≡◌, None, Some, true};
ghost use Rattle.rules.specs.Legal.{first_broken};
ghost use Rattle.rules.specs.Performed.{performs};
ghost use Rattle.rules.specs.WorkedLoads.{one_load, loads_side_by_side, get_response, endless_file, bad_fcp, deactivated_file, absent, other_card_within_a_load, keeps_partial_reading, framework_reads_anew, refused_before_stale};
ghost use Rattle.rules.specs.WorkedSlots.{slot_empty, slot_full, arm_full};
ghost use Rattle.rules.specs.WorkedChannels.{channels, raw_on_channel, tries, raw_update};
ghost use Rattle.rules.specs.WorkedEdits.{edit_with_extension, edit_frees_extension, plan_full_no_record, plan_refusals, plan_bad_file, needs_pin, load_meets_edit, three_sets, removed_behind_deciding, plans_again, lost_answer};
ghost use Rattle.rules.specs.WorkedRefreshes.{refresh_within_a_load, refresh_of_one_file, refresh_with_reset, failed_reset, other_proactive_command};
ghost use Rattle.rules.specs.WorkedNotices.{notices, notices_of_nothing};
ghost use Rattle.rules.specs.WorkedFaults.{fault_at_call_01_acted, fault_at_call_01_lost, fault_at_call_02_acted, fault_at_call_02_lost, fault_at_call_03_acted, fault_at_call_03_lost, fault_at_call_04_acted, fault_at_call_04_lost, fault_at_call_05_acted, fault_at_call_05_lost, fault_at_call_06_acted, fault_at_call_06_lost, fault_at_call_07_acted, fault_at_call_07_lost, fault_at_call_08_acted, fault_at_call_08_lost, fault_at_call_09_acted, fault_at_call_09_lost, fault_at_call_10_acted, fault_at_call_10_lost, fault_at_call_11_acted, fault_at_call_11_lost, fault_at_call_12_acted, fault_at_call_12_lost};
ghost use Rattle.rules.specs.WorkedRuns.{absent_in_run, edit_in_run, late_look_in_run, idle_mark_in_run, falling_look_in_run};
ghost use Rattle.rules.specs.BrokenContents.{rule01_01, rule01_02, rule01_03, rule01_04, rule02_05, rule02_06, rule02_07, rule02_08, rule03_09, rule03_10, rule03_11, rule03_12, rule03_14, rule03_15, rule03_16, rule04_17, rule04_18, rule04_19, rule05_20, rule05_21};
ghost use Rattle.rules.specs.BrokenAnswers.{rule06_22, rule06_23, rule06_24, rule06_25, rule06_26, rule06_27, rule06_28, rule06_29, rule06_30, rule06_31, rule06_32, rule06_33, rule06_34, rule06_40, rule06_51};
ghost use Rattle.rules.specs.BrokenTurns.{rule07_35, rule07_36, rule07_37, rule03_13, rule08_38, rule08_39, rule08_41, rule08_42, rule08_43, rule08_44, rule08_45, rule08_46, rule08_47, rule08_49, rule08_50, rule09_52, rule09_53, rule10_48, rule10_54, rule10_55, rule10_56, rule10_57, rule10_58, rule10_59, rule10_60};

/// The worked reports of loads are legal.
pub fn judges_worked_loads()
    ensures one_load { first_broken one_load ≡ None }
    ensures loads_side_by_side { first_broken loads_side_by_side ≡ None }
    ensures get_response { first_broken get_response ≡ None }
    ensures endless_file { first_broken endless_file ≡ None }
    ensures bad_fcp { first_broken bad_fcp ≡ None }
    ensures deactivated_file { first_broken deactivated_file ≡ None }
    ensures absent { first_broken absent ≡ None }
    ensures other_card_within_a_load { first_broken other_card_within_a_load ≡ None }
    ensures keeps_partial_reading { first_broken keeps_partial_reading ≡ None }
    ensures framework_reads_anew { first_broken framework_reads_anew ≡ None }
    ensures refused_before_stale { first_broken refused_before_stale ≡ None }
{}

/// Each line of these reports is the one that is due.
pub fn performs_worked_loads()
    ensures one_load { performs one_load ≡ true }
    ensures loads_side_by_side { performs loads_side_by_side ≡ true }
    ensures get_response { performs get_response ≡ true }
    ensures endless_file { performs endless_file ≡ true }
    ensures bad_fcp { performs bad_fcp ≡ true }
    ensures deactivated_file { performs deactivated_file ≡ true }
    ensures absent { performs absent ≡ true }
    ensures other_card_within_a_load { performs other_card_within_a_load ≡ true }
    ensures keeps_partial_reading { performs keeps_partial_reading ≡ true }
    ensures framework_reads_anew { performs framework_reads_anew ≡ true }
    ensures refused_before_stale { performs refused_before_stale ≡ true }
{}

/// The worked reports of an empty slot, a full one and a full list of armed changes are legal.
pub fn judges_worked_slots()
    ensures slot_empty { first_broken slot_empty ≡ None }
    ensures slot_full { first_broken slot_full ≡ None }
    ensures arm_full { first_broken arm_full ≡ None }
{}

/// Each line of these reports is the one that is due.
pub fn performs_worked_slots()
    ensures slot_empty { performs slot_empty ≡ true }
    ensures slot_full { performs slot_full ≡ true }
    ensures arm_full { performs arm_full ≡ true }
{}

/// The worked reports of channels, raw commands and PINs are legal.
pub fn judges_worked_channels()
    ensures channels { first_broken channels ≡ None }
    ensures raw_on_channel { first_broken raw_on_channel ≡ None }
    ensures tries { first_broken tries ≡ None }
    ensures raw_update { first_broken raw_update ≡ None }
{}

/// Each line of these reports is the one that is due.
pub fn performs_worked_channels()
    ensures channels { performs channels ≡ true }
    ensures raw_on_channel { performs raw_on_channel ≡ true }
    ensures tries { performs tries ≡ true }
    ensures raw_update { performs raw_update ≡ true }
{}

/// The worked reports of edits are legal.
pub fn judges_worked_edits()
    ensures edit_with_extension { first_broken edit_with_extension ≡ None }
    ensures edit_frees_extension { first_broken edit_frees_extension ≡ None }
    ensures plan_full_no_record { first_broken plan_full_no_record ≡ None }
    ensures plan_refusals { first_broken plan_refusals ≡ None }
    ensures plan_bad_file { first_broken plan_bad_file ≡ None }
    ensures needs_pin { first_broken needs_pin ≡ None }
    ensures load_meets_edit { first_broken load_meets_edit ≡ None }
    ensures three_sets { first_broken three_sets ≡ None }
    ensures removed_behind_deciding { first_broken removed_behind_deciding ≡ None }
    ensures plans_again { first_broken plans_again ≡ None }
    ensures lost_answer { first_broken lost_answer ≡ None }
{}

/// Each line of these reports is the one that is due.
pub fn performs_worked_edits()
    ensures edit_with_extension { performs edit_with_extension ≡ true }
    ensures edit_frees_extension { performs edit_frees_extension ≡ true }
    ensures plan_full_no_record { performs plan_full_no_record ≡ true }
    ensures plan_refusals { performs plan_refusals ≡ true }
    ensures plan_bad_file { performs plan_bad_file ≡ true }
    ensures needs_pin { performs needs_pin ≡ true }
    ensures load_meets_edit { performs load_meets_edit ≡ true }
    ensures three_sets { performs three_sets ≡ true }
    ensures removed_behind_deciding { performs removed_behind_deciding ≡ true }
    ensures plans_again { performs plans_again ≡ true }
    ensures lost_answer { performs lost_answer ≡ true }
{}

/// The worked reports of proactive commands and resets are legal.
pub fn judges_worked_refreshes()
    ensures refresh_within_a_load { first_broken refresh_within_a_load ≡ None }
    ensures refresh_of_one_file { first_broken refresh_of_one_file ≡ None }
    ensures refresh_with_reset { first_broken refresh_with_reset ≡ None }
    ensures failed_reset { first_broken failed_reset ≡ None }
    ensures other_proactive_command { first_broken other_proactive_command ≡ None }
{}

/// Each line of these reports is the one that is due.
pub fn performs_worked_refreshes()
    ensures refresh_within_a_load { performs refresh_within_a_load ≡ true }
    ensures refresh_of_one_file { performs refresh_of_one_file ≡ true }
    ensures refresh_with_reset { performs refresh_with_reset ≡ true }
    ensures failed_reset { performs failed_reset ≡ true }
    ensures other_proactive_command { performs other_proactive_command ≡ true }
{}

/// The worked reports of watches are legal.
pub fn judges_worked_notices()
    ensures notices { first_broken notices ≡ None }
    ensures notices_of_nothing { first_broken notices_of_nothing ≡ None }
{}

/// Each line of these reports is the one that is due.
pub fn performs_worked_notices()
    ensures notices { performs notices ≡ true }
    ensures notices_of_nothing { performs notices_of_nothing ≡ true }
{}

/// The worked reports of an edit with a fault at each of its calls are legal.
pub fn judges_worked_faults()
    ensures fault_at_call_01_acted { first_broken fault_at_call_01_acted ≡ None }
    ensures fault_at_call_01_lost { first_broken fault_at_call_01_lost ≡ None }
    ensures fault_at_call_02_acted { first_broken fault_at_call_02_acted ≡ None }
    ensures fault_at_call_02_lost { first_broken fault_at_call_02_lost ≡ None }
    ensures fault_at_call_03_acted { first_broken fault_at_call_03_acted ≡ None }
    ensures fault_at_call_03_lost { first_broken fault_at_call_03_lost ≡ None }
    ensures fault_at_call_04_acted { first_broken fault_at_call_04_acted ≡ None }
    ensures fault_at_call_04_lost { first_broken fault_at_call_04_lost ≡ None }
    ensures fault_at_call_05_acted { first_broken fault_at_call_05_acted ≡ None }
    ensures fault_at_call_05_lost { first_broken fault_at_call_05_lost ≡ None }
    ensures fault_at_call_06_acted { first_broken fault_at_call_06_acted ≡ None }
    ensures fault_at_call_06_lost { first_broken fault_at_call_06_lost ≡ None }
    ensures fault_at_call_07_acted { first_broken fault_at_call_07_acted ≡ None }
    ensures fault_at_call_07_lost { first_broken fault_at_call_07_lost ≡ None }
    ensures fault_at_call_08_acted { first_broken fault_at_call_08_acted ≡ None }
    ensures fault_at_call_08_lost { first_broken fault_at_call_08_lost ≡ None }
    ensures fault_at_call_09_acted { first_broken fault_at_call_09_acted ≡ None }
    ensures fault_at_call_09_lost { first_broken fault_at_call_09_lost ≡ None }
    ensures fault_at_call_10_acted { first_broken fault_at_call_10_acted ≡ None }
    ensures fault_at_call_10_lost { first_broken fault_at_call_10_lost ≡ None }
    ensures fault_at_call_11_acted { first_broken fault_at_call_11_acted ≡ None }
    ensures fault_at_call_11_lost { first_broken fault_at_call_11_lost ≡ None }
    ensures fault_at_call_12_acted { first_broken fault_at_call_12_acted ≡ None }
    ensures fault_at_call_12_lost { first_broken fault_at_call_12_lost ≡ None }
{}

/// Each line of these reports is the one that is due.
pub fn performs_worked_faults()
    ensures fault_at_call_01_acted { performs fault_at_call_01_acted ≡ true }
    ensures fault_at_call_01_lost { performs fault_at_call_01_lost ≡ true }
    ensures fault_at_call_02_acted { performs fault_at_call_02_acted ≡ true }
    ensures fault_at_call_02_lost { performs fault_at_call_02_lost ≡ true }
    ensures fault_at_call_03_acted { performs fault_at_call_03_acted ≡ true }
    ensures fault_at_call_03_lost { performs fault_at_call_03_lost ≡ true }
    ensures fault_at_call_04_acted { performs fault_at_call_04_acted ≡ true }
    ensures fault_at_call_04_lost { performs fault_at_call_04_lost ≡ true }
    ensures fault_at_call_05_acted { performs fault_at_call_05_acted ≡ true }
    ensures fault_at_call_05_lost { performs fault_at_call_05_lost ≡ true }
    ensures fault_at_call_06_acted { performs fault_at_call_06_acted ≡ true }
    ensures fault_at_call_06_lost { performs fault_at_call_06_lost ≡ true }
    ensures fault_at_call_07_acted { performs fault_at_call_07_acted ≡ true }
    ensures fault_at_call_07_lost { performs fault_at_call_07_lost ≡ true }
    ensures fault_at_call_08_acted { performs fault_at_call_08_acted ≡ true }
    ensures fault_at_call_08_lost { performs fault_at_call_08_lost ≡ true }
    ensures fault_at_call_09_acted { performs fault_at_call_09_acted ≡ true }
    ensures fault_at_call_09_lost { performs fault_at_call_09_lost ≡ true }
    ensures fault_at_call_10_acted { performs fault_at_call_10_acted ≡ true }
    ensures fault_at_call_10_lost { performs fault_at_call_10_lost ≡ true }
    ensures fault_at_call_11_acted { performs fault_at_call_11_acted ≡ true }
    ensures fault_at_call_11_lost { performs fault_at_call_11_lost ≡ true }
    ensures fault_at_call_12_acted { performs fault_at_call_12_acted ≡ true }
    ensures fault_at_call_12_lost { performs fault_at_call_12_lost ≡ true }
{}

/// Reports of running systems: the first three are legal, and one with a turn without lines, or a look
/// at fewer publications than its actor had seen, is not.
pub fn judges_worked_runs()
    ensures absent_in_run { first_broken absent_in_run ≡ None }
    ensures edit_in_run { first_broken edit_in_run ≡ None }
    ensures late_look_in_run { first_broken late_look_in_run ≡ None }
    ensures idle_mark_in_run { first_broken idle_mark_in_run ≡ Some (4, 8) }
    ensures falling_look_in_run { first_broken falling_look_in_run ≡ Some (35, 8) }
{}

/// Each of these reports breaks the rule of responses at its line, and no lower one, and no earlier
/// line breaks a rule.
pub fn judges_broken_responses()
    ensures rule01_01 { first_broken rule01_01 ≡ Some (14, 1) }
    ensures rule01_02 { first_broken rule01_02 ≡ Some (27, 1) }
    ensures rule01_03 { first_broken rule01_03 ≡ Some (35, 1) }
    ensures rule01_04 { first_broken rule01_04 ≡ Some (24, 1) }
{}

/// Each of these reports breaks the rule of snapshots at its line, and no lower one, and no earlier
/// line breaks a rule.
pub fn judges_broken_snapshots()
    ensures rule02_05 { first_broken rule02_05 ≡ Some (33, 2) }
    ensures rule02_06 { first_broken rule02_06 ≡ Some (33, 2) }
    ensures rule02_07 { first_broken rule02_07 ≡ Some (33, 2) }
    ensures rule02_08 { first_broken rule02_08 ≡ Some (43, 2) }
{}

/// Each of these reports breaks the rule of edits at its line, and no lower one, and no earlier line
/// breaks a rule.
pub fn judges_broken_edits()
    ensures rule03_09 { first_broken rule03_09 ≡ Some (26, 3) }
    ensures rule03_10 { first_broken rule03_10 ≡ Some (26, 3) }
    ensures rule03_11 { first_broken rule03_11 ≡ Some (27, 3) }
    ensures rule03_12 { first_broken rule03_12 ≡ Some (22, 3) }
    ensures rule03_14 { first_broken rule03_14 ≡ Some (32, 3) }
    ensures rule03_15 { first_broken rule03_15 ≡ Some (54, 3) }
    ensures rule03_16 { first_broken rule03_16 ≡ Some (19, 3) }
{}

/// Each of these reports breaks the rule of channels at its line, and no lower one, and no earlier line
/// breaks a rule.
pub fn judges_broken_channels()
    ensures rule04_17 { first_broken rule04_17 ≡ Some (48, 4) }
    ensures rule04_18 { first_broken rule04_18 ≡ Some (15, 4) }
    ensures rule04_19 { first_broken rule04_19 ≡ Some (50, 4) }
{}

/// Each of these reports breaks the rule of rest at its line, and no lower one, and no earlier line
/// breaks a rule.
pub fn judges_broken_rest()
    ensures rule05_20 { first_broken rule05_20 ≡ Some (30, 5) }
    ensures rule05_21 { first_broken rule05_21 ≡ Some (23, 5) }
{}

/// Each of these reports breaks the rule of answers at its line, and no lower one, and no earlier line
/// breaks a rule.
pub fn judges_broken_answers()
    ensures rule06_22 { first_broken rule06_22 ≡ Some (34, 6) }
    ensures rule06_23 { first_broken rule06_23 ≡ Some (6, 6) }
    ensures rule06_24 { first_broken rule06_24 ≡ Some (6, 6) }
    ensures rule06_25 { first_broken rule06_25 ≡ Some (33, 6) }
    ensures rule06_26 { first_broken rule06_26 ≡ Some (24, 6) }
    ensures rule06_27 { first_broken rule06_27 ≡ Some (34, 6) }
    ensures rule06_28 { first_broken rule06_28 ≡ Some (34, 6) }
    ensures rule06_29 { first_broken rule06_29 ≡ Some (29, 6) }
    ensures rule06_30 { first_broken rule06_30 ≡ Some (29, 6) }
    ensures rule06_31 { first_broken rule06_31 ≡ Some (26, 6) }
    ensures rule06_32 { first_broken rule06_32 ≡ Some (40, 6) }
    ensures rule06_33 { first_broken rule06_33 ≡ Some (27, 6) }
    ensures rule06_34 { first_broken rule06_34 ≡ Some (40, 6) }
    ensures rule06_40 { first_broken rule06_40 ≡ Some (6, 6) }
    ensures rule06_51 { first_broken rule06_51 ≡ Some (34, 6) }
{}

/// Each of these reports breaks the rule of verifications at its line, and no lower one, and no earlier
/// line breaks a rule.
pub fn judges_broken_verifications()
    ensures rule07_35 { first_broken rule07_35 ≡ Some (21, 7) }
    ensures rule07_36 { first_broken rule07_36 ≡ Some (20, 7) }
    ensures rule07_37 { first_broken rule07_37 ≡ Some (35, 7) }
{}

/// Each of these reports breaks the rule of turns at its line, and no lower one, and no earlier line
/// breaks a rule.
pub fn judges_broken_turns()
    ensures rule03_13 { first_broken rule03_13 ≡ Some (29, 8) }
    ensures rule08_38 { first_broken rule08_38 ≡ Some (12, 8) }
    ensures rule08_39 { first_broken rule08_39 ≡ Some (7, 8) }
    ensures rule08_41 { first_broken rule08_41 ≡ Some (20, 8) }
    ensures rule08_42 { first_broken rule08_42 ≡ Some (44, 8) }
    ensures rule08_43 { first_broken rule08_43 ≡ Some (46, 8) }
    ensures rule08_44 { first_broken rule08_44 ≡ Some (46, 8) }
    ensures rule08_45 { first_broken rule08_45 ≡ Some (46, 8) }
    ensures rule08_46 { first_broken rule08_46 ≡ Some (20, 8) }
    ensures rule08_47 { first_broken rule08_47 ≡ Some (30, 8) }
    ensures rule08_49 { first_broken rule08_49 ≡ Some (26, 8) }
    ensures rule08_50 { first_broken rule08_50 ≡ Some (41, 8) }
{}

/// Each of these reports breaks the rule of ending at its line, and no lower one, and no earlier line
/// breaks a rule.
pub fn judges_broken_ending()
    ensures rule09_52 { first_broken rule09_52 ≡ Some (41, 9) }
    ensures rule09_53 { first_broken rule09_53 ≡ Some (60, 9) }
{}

/// Each of these reports breaks the rule of faults at its line, and no lower one, and no earlier line
/// breaks a rule.
pub fn judges_broken_faults()
    ensures rule10_48 { first_broken rule10_48 ≡ Some (30, 10) }
    ensures rule10_54 { first_broken rule10_54 ≡ Some (25, 10) }
    ensures rule10_55 { first_broken rule10_55 ≡ Some (22, 10) }
    ensures rule10_56 { first_broken rule10_56 ≡ Some (23, 10) }
    ensures rule10_57 { first_broken rule10_57 ≡ Some (24, 10) }
    ensures rule10_58 { first_broken rule10_58 ≡ Some (26, 10) }
    ensures rule10_59 { first_broken rule10_59 ≡ Some (26, 10) }
    ensures rule10_60 { first_broken rule10_60 ≡ Some (14, 10) }
{}
