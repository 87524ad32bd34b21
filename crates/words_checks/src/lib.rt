// Examples of words that are read and written.
#![tactic(auto)]

#[cfg(test)]
mod tests {
    use std::alloc::{AllocError, Global};
    use std::test::Fail;

    const MOST: u64 = u64::MAX;

    #[test]
    fn unsigned_words(rt: HostRuntime) {
        let table = [
            ("0", MOST, Some(0)),
            ("007", 7, Some(7)),
            ("7", 6, None),
            ("18446744073709551615", MOST, Some(MOST)),
            ("18446744073709551616", MOST, None),
            ("0000000000000000000000000000005", MOST, Some(5)),
            ("999999999999999999999999999999", MOST, None),
            ("", MOST, None),
            ("+5", MOST, None),
            ("-5", MOST, None),
            ("5 ", MOST, None),
            ("0x5", MOST, None),
            ("abc", MOST, None),
            ("٣", MOST, None),
        ];
        for (word, most, value) in table {
            assert_eq!(rt; words::unsigned(word, most), value, "{}", word);
        }
    }

    #[test]
    fn signed_words(rt: HostRuntime) {
        let table = [
            ("0", Some(0)),
            ("-0", Some(0)),
            ("-12", Some(-12)),
            ("9223372036854775807", Some(i64::MAX)),
            ("9223372036854775808", None),
            ("-9223372036854775808", Some(i64::MIN)),
            ("-9223372036854775809", None),
            ("", None),
            ("-", None),
            ("--1", None),
            ("+5", None),
            ("-+5", None),
            ("5 ", None),
            ("abc", None),
        ];
        for (word, value) in table {
            assert_eq!(rt; words::signed(word), value, "{}", word);
        }
    }

    // Whether the word is read as these bytes.
    fn reads(heap: Global, word: &str, bytes: &[u8]) -> Result<bool, AllocError> {
        match words::bytes(heap, word)? {
            Some(found) => Ok(found.as_slice() == bytes),
            None => Ok(false),
        }
    }

    #[test]
    fn words_of_bytes(rt: HostRuntime) -> Result<(), Fail> {
        let table = [("-", ""), ("00", "\0"), ("4142", "AB"), ("7e0a", "~\n")];
        for (word, text) in table {
            assert!(rt; reads(rt.alloc(), word, text.as_bytes())?, "{}", word);
        }
        Ok(())
    }

    #[test]
    fn words_of_no_bytes(rt: HostRuntime) -> Result<(), Fail> {
        for word in ["", "4", "414", "AB", "4g", "0x41", "41 ", "--", "é"] {
            assert!(rt; words::bytes(rt.alloc(), word)?.is_none(), "{}", word);
        }
        Ok(())
    }

    #[test]
    fn pattern_words(rt: HostRuntime) {
        let table = [
            ("0000000000000000", Some(0)),
            ("3ff8000000000000", Some(0x3ff8_0000_0000_0000)),
            ("0123456789abcdef", Some(0x0123_4567_89ab_cdef)),
            ("ffffffffffffffff", Some(MOST)),
            ("fffffffffffffff", None),
            ("fffffffffffffffff", None),
            ("FFFFFFFFFFFFFFFF", None),
            ("000000000000000g", None),
            ("", None),
        ];
        for (word, value) in table {
            assert_eq!(rt; words::pattern(word), value, "{}", word);
        }
    }

    #[test]
    fn every_byte_is_read_back(rt: HostRuntime) -> Result<(), Fail> {
        let mut all = Vec::new(rt.alloc());
        for byte in 0..=255u8 {
            all.push(byte)?;
        }
        let mut word = String::new(rt.alloc());
        words::push_bytes(&mut word, all.as_slice())?;
        assert_eq!(rt; word.len(), 512);
        assert!(rt; reads(rt.alloc(), word.as_str(), all.as_slice())?);
        Ok(())
    }

    #[test]
    fn words_of_a_line(rt: HostRuntime) {
        let mut line = words::Words::of("  read  4142 ");
        assert!(rt; line.only().is_none());
        assert_eq!(rt; line.next(), Some("read"));
        assert_eq!(rt; line.only(), Some("4142"));
        assert_eq!(rt; line.next(), Some("4142"));
        assert!(rt; line.only().is_none());
        assert!(rt; line.next().is_none());
        assert!(rt; words::Words::of("  read  4142 ").all(|word| word.len() == 4));
    }

    #[test]
    fn texts_of_lines(rt: HostRuntime) -> Result<(), Fail> {
        let text = words::line_text(rt.alloc(), b"read 41\xff\r")?;
        assert_eq!(rt; text.as_str(), "read 41?");
        Ok(())
    }

    #[test]
    fn bytes_and_patterns_are_printed(rt: HostRuntime) -> Result<(), Fail> {
        let alloc = rt.alloc();
        let bytes = words::HexBytes(b"\x0f\xf0");
        let none = words::HexBytes(b"");
        let pattern = words::HexPattern(0xa9);
        let text = format!(in alloc; "{bytes} {none} {pattern}")?;
        assert_eq!(rt; text.as_str(), "0ff0 - 00000000000000a9");
        Ok(())
    }

    #[test]
    fn words_are_appended(rt: HostRuntime) -> Result<(), Fail> {
        let mut line = String::from_str(rt.alloc(), "say ")?;
        words::push_bytes(&mut line, b"")?;
        line.push(' ')?;
        words::push_bytes(&mut line, b"\x0f\xf0")?;
        line.push(' ')?;
        words::push_pattern(&mut line, 0x3ff8_0000_0000_00a9)?;
        assert_eq!(rt; line.as_str(), "say - 0ff0 3ff80000000000a9");
        assert_eq!(rt;
            words::pattern("3ff80000000000a9"),
            Some(0x3ff8_0000_0000_00a9)
        );
        Ok(())
    }
}
