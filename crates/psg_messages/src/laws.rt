//! The laws of messages, as the contract of a call that does nothing.
ghost use Rattle.std.specs.Prelude.{◌≡◌, ℕ, List, Option};
ghost use Rattle.serde_json.specs.Data.{Data, Members, object};
ghost use Rattle.psg_messages.specs.Answers.{answer_of, note_of, refusal_of};
ghost use Rattle.psg_messages.specs.Messages.{answer, fields, note, said};
ghost use Rattle.psg_messages.specs.declared.turns.Fault.{Fault};

/// Shows that the other side reads answers as answers, and a note as the note that it is.
pub fn messages_come_back()
    ensures answers { (id value : Data) → said (answer_of id value) ≡ answer }
    ensures refusals { (id : Option Data) (fault : Fault) (message : List ℕ)
        → said (refusal_of id fault message) ≡ answer }
    ensures notes { (method : List ℕ) (members : Members)
        → said (note_of method (object members)) ≡ note method (fields (object members)) }
{}
