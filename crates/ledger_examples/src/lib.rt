// Ledgers, issues and statements by example.
#![tactic(auto)]

#[cfg(test)]
mod tests {
    use codes::code::Code;
    use codes::table::Table;
    use dayfile::heading::Heading;
    use faults::fault::Fault;
    use faults::refusal::Refusal;
    use ledger::issue::issue;
    use ledger::note::Note;
    use ledger::sound::{are_sound, is_within};
    use statement::issued::statement;
    use std::test::Fail;

    // Issues the table, or answers that the memory is unsound.
    fn issue_on(
        ledger: &mut [Note],
        notes: usize,
        issues: u8,
        table: &Table,
    ) -> Result<usize, Fault> {
        if issues <= 3 && are_sound(ledger, notes, issues) && is_within(table) {
            issue(ledger, notes, issues, table)
        } else {
            Err(Fault::plain(Refusal::UnsoundMemory))
        }
    }

    // States an issue, or answers that the memory is unsound.
    fn state_on(
        heading: &Heading,
        ledger: &[Note],
        notes: usize,
        issues: u8,
        issue: u8,
        buffer: &mut [u8],
    ) -> Result<usize, Fault> {
        if are_sound(ledger, notes, issues) {
            statement(heading, ledger, notes, issues, issue, buffer)
        } else {
            Err(Fault::plain(Refusal::UnsoundMemory))
        }
    }

    // What was answered, or the number of the reason.
    fn told(answer: Result<usize, Fault>) -> Result<usize, u8> {
        answer.map_err(|fault| fault.number())
    }

    fn note(issue: u8, code: u8, party: u8, amount: i64) -> Note {
        Note {
            issue,
            code,
            party,
            amount,
        }
    }

    #[test]
    fn sound_notes(rt: HostRuntime) {
        let ledger = [
            note(0, 1, 1, 150),
            note(0, 1, 2, -100),
            note(1, 10, 41, -100_000_000_000_000_000),
            note(9, 9, 9, 0),
        ];
        assert!(rt; are_sound(&ledger, 3, 2));
        assert!(rt; are_sound(&ledger, 0, 0));
        assert!(rt; !are_sound(&ledger, 4, 2));
        assert!(rt; !are_sound(&ledger, 3, 1), "issue 1 was not made");
        assert!(rt; !are_sound(&ledger, 5, 2), "a note count beyond the ledger");
    }

    #[test]
    fn unsound_notes(rt: HostRuntime) {
        assert!(rt; !are_sound(&[note(0, 0, 1, 5)], 1, 1), "no code");
        assert!(rt; !are_sound(&[note(0, 15, 1, 5)], 1, 1), "unknown code");
        assert!(rt; !are_sound(&[note(0, 1, 33, 5)], 1, 1), "unknown party");
        assert!(rt; !are_sound(&[note(0, 1, 1, 0)], 1, 1), "amount 0");
        assert!(rt;
            !are_sound(&[note(0, 1, 1, -100_000_000_000_000_001)], 1, 1),
            "amount beyond the limit"
        );
        assert!(rt;
            !are_sound(&[note(0, 1, 1, 5), note(0, 1, 1, 5)], 2, 1),
            "equal neighbours"
        );
        assert!(rt;
            !are_sound(&[note(1, 1, 1, 5), note(0, 1, 2, 5)], 2, 2),
            "an earlier issue behind a later one"
        );
    }

    #[test]
    fn issues(rt: HostRuntime) {
        let mut table = Table::new();
        table.put(Code::A1, 1, 150);
        table.put(Code::F2, 41, -150);
        let mut short = [note(7, 7, 7, 7)];
        assert_eq!(rt; told(issue_on(&mut short, 0, 0, &table)), Err(13));
        assert_eq!(rt; short[0].amount, 7);
        let mut ledger = [note(7, 7, 7, 7); 4];
        assert_eq!(rt; told(issue_on(&mut ledger, 0, 0, &table)), Ok(2));
        assert!(rt; ledger[0].amount == 150 && ledger[1].code == 10 && ledger[1].amount == -150);
        assert_eq!(rt; told(issue_on(&mut ledger, 2, 1, &table)), Ok(0));
        table.put(Code::A1, 1, 120);
        assert_eq!(rt; told(issue_on(&mut ledger, 2, 1, &table)), Ok(1));
        assert!(rt; ledger[2].issue == 1 && ledger[2].party == 1 && ledger[2].amount == -30);
        assert_eq!(rt; ledger[3].amount, 7);
    }

    #[test]
    fn statements(rt: HostRuntime) -> Result<(), Fail> {
        let Some(heading) = Heading::new(2019, 3, 5, 24, 3, 1, 1) else {
            return Err(Fail::new("no heading"));
        };
        let ledger = [
            note(0, 1, 1, 150_000_000),
            note(0, 1, 2, -100_000_000),
            note(1, 10, 41, -1),
        ];
        let mut exact = [7; 60];
        assert_eq!(rt;
            told(state_on(&heading, &ledger, 3, 2, 0, &mut exact)),
            Ok(60)
        );
        assert!(rt; exact == *b"DAY 2019-03-05 24 0\nA1 1 P 150000000\nA1 2 C 100000000\nEND 2\n");
        let mut short = [7; 59];
        assert_eq!(rt;
            told(state_on(&heading, &ledger, 3, 2, 0, &mut short)),
            Err(15)
        );
        assert!(rt; short == [7; 59]);
        let mut wide = [7; 38];
        assert_eq!(rt;
            told(state_on(&heading, &ledger, 3, 2, 1, &mut wide)),
            Ok(36)
        );
        assert!(rt; wide == *b"DAY 2019-03-05 24 1\nF2 41 C 1\nEND 1\n\x07\x07");
        assert_eq!(rt;
            told(state_on(&heading, &ledger, 3, 2, 2, &mut wide)),
            Err(5)
        );
        Ok(())
    }
}
