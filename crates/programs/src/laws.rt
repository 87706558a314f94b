//! What holds of the programs and of their counts. Nothing here runs: each function's contract is a law.

ghost use Rattle.programs.specs.Counting.{FramesAreMessages};
ghost use Rattle.programs.specs.InTurn.{ThreeProcesses, TwoProcesses};
ghost use Rattle.programs.specs.Processes.{ProcessesAreRuns};

/// A stream has as many frames as it has messages when it is served, and so as many as there are answers.
pub fn frames_are_messages()
    ensures { FramesAreMessages }
{}

/// Any commands and daemons of any processes, one after another over the same media, are runs on each image. Each
/// begins on what the one before it left. At the end each image has the state after all that they committed.
pub fn processes_are_runs()
    ensures { ProcessesAreRuns }
{}

/// A process of `udfburn` applies requests to an image, and another one gets a file of it: by their contracts alone, the
/// second prints what the path has after all that the first committed.
pub fn two_processes()
    ensures { TwoProcesses }
{}

/// The same where a process before them formatted the image.
pub fn three_processes()
    ensures { ThreeProcesses }
{}
