//! What holds of frames and answers. Nothing here runs: each function's contract is a law.

ghost use Rattle.std.specs.Prelude.{◌≡◌, ◌∷◌, ◌++◌, [], ℕ, List, Option};
ghost use Rattle.std.specs.List.{AllZip};
ghost use Rattle.request.specs.declared.message.Message.{Message};
ghost use Rattle.request.specs.declared.answer.Answer.{Answer};
ghost use Rattle.request.specs.Answers.{IsAnswer, answer_frame};
ghost use Rattle.request.specs.Frames.{MessagesAre, Frames, TakesMessage, fed, Agree};

/// After more bytes of a stream are fed, the messages that were taken are still its first ones.
pub fn feeding_goes_on()
    ensures { (bytes piece : List ℕ) (messages : List Message) (reader : Option (List ℕ)) → MessagesAre bytes messages reader
        → MessagesAre (bytes ++ piece) messages (fed reader piece) }
{}

/// A message that is taken is the next one of the stream.
pub fn taking_goes_on()
    ensures { (bytes : List ℕ) (messages : List Message) (message : Message) (reader after : Option (List ℕ)) → MessagesAre bytes messages reader
        → TakesMessage reader message after → MessagesAre bytes (messages ++ message ∷ []) after }
{}

/// A stream has one list of messages, apart from lack of memory, however it is cut into pieces.
pub fn one_reading()
    ensures { (bytes : List ℕ) (messages others : List Message) (reader other : Option (List ℕ)) → Frames bytes messages reader
        → Frames bytes others other → (reader ≡ other) × AllZip Agree messages others }
{}

/// No answer's bytes begin another's.
pub fn no_answer_begins_another()
    ensures { (a b : Answer) (x y : List ℕ) → IsAnswer a → IsAnswer b → answer_frame a ++ x ≡ answer_frame b ++ y → (a ≡ b) × (x ≡ y) }
{}
