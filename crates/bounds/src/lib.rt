// How large the amounts of a sound book can be.
#![tactic(auto)]

ghost use Rattle.bounds.specs.Bounded.{SoundBooksCanBeShared, SoundBooksHaveValidRecords};

// Every record of a sound book is valid, and its amounts keep within the limits of a sharing rule.
pub fn sound_books_stand()
    ensures valid { SoundBooksHaveValidRecords }
    ensures shared { SoundBooksCanBeShared }
{}
