// Examples of the day file, run as tests: which records are taken, and how a file is read.
#![tactic(auto)]

#[cfg(test)]
mod tests {
    use cutting::reader::Reader;
    use dayfile::heading::Heading;
    use dayfile::record::{Failure, Price, Record};
    use dayfile_encode::{encode_end, encode_failure, encode_heading};
    use decoding::decode::{decode_end, decode_heading, decode_record};
    use faults::fault::Fault;
    use std::test::Fail;

    // 2019-03-05 with 24 hours, 3 accounts, 1 node and 1 interconnection.
    const HEADING: [u8; 10] = *b"DY\x07\xe3\x03\x05\x18\x03\x01\x01";

    // That heading, the price of node 1 in hour 7, and the end record.
    const FILE: [u8; 26] =
        *b"DY\x07\xe3\x03\x05\x18\x03\x01\x01PN\x01\x07\x00\x00\xc3\x50\xff\xff\xff\xffZZ\x00\x02";

    // A file that ends inside the price.
    const CUT_SHORT: [u8; 20] =
        *b"DY\x07\xe3\x03\x05\x18\x03\x01\x01PN\x01\x07\x00\x00\xc3\x50\xff\xff";

    // The number of a refusal, if there is one.
    fn refused<T: Drop>(answer: Result<T, Fault>) -> Option<u8> {
        answer.err().map(|fault| fault.number())
    }

    // May a day of 24 hours have this date?
    fn is_date(year: u16, month: u8, day: u8) -> bool {
        Heading::new(year, month, day, 24, 3, 1, 1).is_some()
    }

    fn has_hours(hours: u8) -> bool {
        Heading::new(2019, 3, 5, hours, 3, 1, 1).is_some()
    }

    #[test]
    fn short_records(rt: HostRuntime) {
        assert_eq!(rt; refused(decode_heading(b"")), Some(2));
        assert_eq!(rt; refused(decode_heading(b"D")), Some(2));
        assert_eq!(rt; refused(decode_heading(b"dy")), Some(2));
        assert_eq!(rt; refused(decode_heading(b"DY\x07\xe3\x03")), Some(3));
        assert_eq!(rt; refused(decode_record(b"MU")), Some(3));
    }

    #[test]
    fn marks_of_other_calls(rt: HostRuntime) {
        let failure = encode_failure(Failure { unit: 1, kind: 2 });
        let end = encode_end(513);
        assert_eq!(rt; refused(decode_heading(&failure)), Some(4));
        assert_eq!(rt; refused(decode_record(&failure)), None);
        assert_eq!(rt; refused(decode_record(&end)), Some(4));
        assert_eq!(rt; refused(decode_heading(&HEADING)), None);
        assert_eq!(rt; refused(decode_record(&HEADING)), Some(4));
        assert_eq!(rt; decode_end(&end), Ok(513));
    }

    #[test]
    fn dates(rt: HostRuntime) {
        assert!(rt; is_date(2024, 2, 29));
        assert!(rt; !is_date(2023, 2, 29));
        assert!(rt; is_date(2096, 2, 29));
        assert!(rt; !is_date(2100, 2, 28));
        assert!(rt; !is_date(2015, 12, 31));
        assert!(rt; !is_date(2019, 4, 31));
        assert!(rt; !is_date(2019, 13, 1));
    }

    #[test]
    fn hours(rt: HostRuntime) {
        assert!(rt; !has_hours(22));
        assert!(rt; has_hours(23));
        assert!(rt; has_hours(25));
        assert!(rt; !has_hours(26));
    }

    #[test]
    fn heading_comes_back(rt: HostRuntime) {
        let heading = Heading::new(2019, 3, 5, 24, 3, 1, 1);
        assert_eq!(rt; heading.map(encode_heading), Some(HEADING));
    }

    #[test]
    fn a_whole_file(rt: HostRuntime) -> Result<(), Fail> {
        let mut reader = Reader::new(&FILE);
        assert_eq!(rt; part_length(&mut reader), Some(10));
        let part = reader.next()?;
        let price = Price {
            node: 1,
            hour: 7,
            day_ahead: 50000,
            real_time: -1,
        };
        assert_eq!(rt; decode_record(part), Ok(Record::Price(price)));
        assert!(rt; !reader.at_end());
        assert_eq!(rt; part_length(&mut reader), Some(4));
        assert!(rt; reader.at_end());
        let Err(fault) = reader.next() else {
            return Err(Fail::new("the file was at its end"));
        };
        assert_eq!(rt; fault.number(), 2);
        assert_eq!(rt; fault.place.offset, 26);
        Ok(())
    }

    // The length of the next record, if it is not refused.
    fn part_length(reader: &mut Reader) -> Option<usize> {
        reader.next().ok().map(|part| part.len())
    }

    #[test]
    fn a_file_cut_short(rt: HostRuntime) -> Result<(), Fail> {
        let mut reader = Reader::new(&CUT_SHORT);
        assert_eq!(rt; part_length(&mut reader), Some(10));
        let Err(fault) = reader.next() else {
            return Err(Fail::new("the record is not whole"));
        };
        assert_eq!(rt; fault.number(), 3);
        assert_eq!(rt; fault.place.offset, 10);
        assert_eq!(rt; reader.offset(), 10);
        Ok(())
    }
}
