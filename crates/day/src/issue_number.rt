// The four issues that a day may have, as Base 17.2.6 names their statements.
ghost use Rattle.std.specs.Prelude.{◌≡◌, ◌≤◌};
ghost use Rattle.day.specs.IssueNumbers.{following, issue_number};

#[derive(Clone, Copy)]
pub enum IssueNumber {
    Initial = 0,
    InitialResettlement = 1,
    IntermediateResettlement = 2,
    FinalResettlement = 3,
}

impl IssueNumber {
    // 0 to 3. A method and no `From`, as the bound goes with it.
    pub fn number(self) -> u8
        ensures value { result ≡ issue_number self }
        ensures bound { result ≤ 3 }
    {
        self as u8
    }

    // The issue that comes after this one, if there is one.
    pub fn following(self) -> Option<IssueNumber>
        ensures { result ≡ following self }
    {
        match self {
            IssueNumber::Initial => Some(IssueNumber::InitialResettlement),
            IssueNumber::InitialResettlement => Some(IssueNumber::IntermediateResettlement),
            IssueNumber::IntermediateResettlement => Some(IssueNumber::FinalResettlement),
            IssueNumber::FinalResettlement => None,
        }
    }
}
