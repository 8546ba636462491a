//! What holds of calls: of one command twice, and of calls one after another.
ghost use Rattle.std.specs.Prelude.{List};
ghost use Rattle.register_core.specs.Register.{Register, opening};
ghost use Rattle.rate_tool.specs.History.{Given, IsHistory, Lead};
ghost use Rattle.rate_tool.specs.Laws.{CommandHasOneReply, WordsHaveOneStatus};

/// Where calls lead from the register that has no name to another, each ending as it is due or with
/// a fault, the calls that were answered lead there by their answers alone, and each wrote its answer,
/// or a front of it where a write failed. There each name has a version and at most
/// `MOST_VERSIONS`, which differ, and each output that is kept is the printed derivation of its
/// version.
#[tactic(auto, using(crate::proofs::HistoryLaws::history))]
pub fn the_history_of_a_register()
    ensures { (calls : List Given) (last : Register) → Lead calls opening last → IsHistory opening calls last }
{}

/// A command has one answer over the same bytes and register, whatever its number of workers: the same
/// text or refusal, and the same register that is left. Only two fractions that are refused are left
/// open, and beside the definition want of memory and faults of the streams and of the keeper.
pub fn a_command_has_one_answer()
    ensures reply { CommandHasOneReply }
    ensures status { WordsHaveOneStatus }
{}
