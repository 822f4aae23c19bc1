//! What follows from the law of names. A call does nothing: its contract is the law.

ghost use Rattle.name_rows.specs.WordsStand.{HeldWordsStand};

/// An entry's words never change under a pass that may still read them. In every state that obeys the law, both words
/// are those of the record that the pass holds, and the entry isn't clean. Only a clean entry is written.
pub fn held_words_stand()
    ensures { HeldWordsStand }
{}
