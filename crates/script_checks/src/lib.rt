// Examples of lines that are played and printed.
#![tactic(auto)]

#[cfg(test)]
mod tests {
    use bytesable::{Block, Ray, Tweak};
    use script::{Element, Verb};
    use std::alloc::{AllocError, Global};
    use std::test::Fail;

    // Whether the line is answered so, by the text and as it is printed.
    fn answers(heap: Global, line: &str, expected: &str) -> Result<bool, AllocError> {
        let answer = script::play_line(heap, line.as_bytes())?;
        let text = answer.text(heap)?;
        let printed = format!(in heap; "{answer}")?;
        Ok(text.as_str() == expected && printed.as_str() == expected)
    }

    #[test]
    fn lines_of_every_answer(rt: HostRuntime) -> Result<(), Fail> {
        let table = [
            ("", ""),
            ("# message", ""),
            ("lens 00", "unreadable"),
            ("message 1 2 3 4 5 ray +1 2 3", "message unreadable"),
            ("message 1 2 3 4 5 block -", "message refused 6"),
            (
                "message 18446744073709551615 007 0 0 0 index 8000000000000000",
                "message ffffffffffffffff000000000000000700000000000000000000000000000000000000000000000b00000000000000001200088000000000000000",
            ),
            ("read -", "read absent"),
            ("read AB", "read unreadable"),
            ("element ray -", "element refused 14"),
            ("element block 0a0b", "element block 0a0b"),
            (
                "element ray 01000400000003020008fffffffffffffffb030008000000000000004d",
                "element ray 3 -5 77",
            ),
        ];
        for (line, expected) in table {
            assert!(rt; answers(rt.alloc(), line, expected)?, "{}", line);
        }
        Ok(())
    }

    #[test]
    fn elements_are_printed(rt: HostRuntime) -> Result<(), Fail> {
        let heap = rt.alloc();
        let ray = Element::from(Ray {
            surface: 3,
            height: -5,
            path: 77,
        });
        let tilt = Element::from(Tweak::Tilt(1.0, -0.0));
        let block = Element::from(Block::empty());
        let text = format!(in heap; "{ray}, {tilt}, {block}")?;
        assert_eq!(rt;
            text.as_str(),
            "ray 3 -5 77, tilt 3ff0000000000000 8000000000000000, block -"
        );
        Ok(())
    }

    #[test]
    fn verbs_are_named(rt: HostRuntime) -> Result<(), Fail> {
        let heap = rt.alloc();
        for word in ["message", "read", "element"] {
            let verb = word.parse::<Verb>()?;
            assert_eq!(rt; verb.to_string(heap)?.as_str(), word);
        }
        let unknown = format!(in heap; "{}", script::UnknownName)?;
        assert_eq!(rt; unknown.as_str(), "unknown name");
        assert!(rt; "reads".parse::<Verb>().is_err());
        Ok(())
    }
}
