//! What holds of every script. The function's contract is the law.
ghost use Rattle.densfill_engine.specs.Laws.{MetalIsReplayed};
ghost use Rattle.densfill_engine.specs.OneRun.{PartsAreOneRun};

/// The metal that `rects` reports is that of a fill which is opened on nothing and edited by the script, edit by edit.
pub fn metal_is_replayed()
    ensures { MetalIsReplayed }
{}

/// The fill libraries of all parts, joined, are the library of one run, and their reports, one after another, its report.
pub fn parts_are_one_run()
    ensures { PartsAreOneRun }
{}
