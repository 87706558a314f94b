//! What holds of sessions. Nothing here runs: each function's contract is a law.

ghost use Rattle.embedding.specs.SessionRuns.{SessionsAreRuns};

/// Any sessions on the file of an image, or on a drive, one after another, are runs on it, whether they ended or a power
/// loss cut one of their calls off. Each begins on what is found of the one before it. At the end the image has the
/// state after all that they committed. Processes of the programs may come between them, by the law `joined` of the
/// engine.
pub fn sessions_are_runs()
    ensures { SessionsAreRuns }
{}
