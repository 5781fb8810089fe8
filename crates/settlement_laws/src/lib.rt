// What holds of every sheet and of every settled day.
#![tactic(auto)]

ghost use Rattle.settlement_laws.specs.Laws.{CellsAreSmall, DaysBalance, PartsAreNear, SharesAreWhole, SheetsBalance};

// Every sheet adds up to zero, its parts add up to what is shared, and each is less than one mil from its proportion.
pub fn sheets_stand()
    ensures balance { SheetsBalance }
    ensures whole { SharesAreWhole }
    ensures near { PartsAreNear }
{}

// Every settled day adds up to zero, and its cells are small enough for any note to be added.
pub fn days_stand()
    ensures balance { DaysBalance }
    ensures small { CellsAreSmall }
{}
