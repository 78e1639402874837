// Wu's two routing rules as definitions with their laws; the jobs over them are Decide and Hop of `routing`.
#![tactic(auto)]

ghost use Rattle.rules.specs.Unread.{HigherUnread};

// Higher bits of vectors and link words aren't read: Decide and Hop answer the same where they are cut to n bits.
pub fn higher_unread()
    ensures { HigherUnread }
{}
