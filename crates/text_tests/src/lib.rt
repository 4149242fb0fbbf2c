// Texts to try: every form, each kind of damage with its line, numbers at their ends, and the layout that is written.

#![tactic(auto)]

#[cfg(test)]
mod tests {
    use listing::{Line, write};
    use refusal::{Failed, Refusal};
    use std::alloc::Global;
    use std::process::Abort;
    use std::test::Fail;
    use text::{Block, Move, read};
    use text_message::TextSentence;

    // What is read must be these nodes.
    fn reads(rt: &impl Abort, heap: Global, text: &[u8], nodes: &[i64]) -> Result<(), Fail> {
        match read(heap, text) {
            Ok(found) => {
                assert!(rt; found.as_slice() == nodes);
                Ok(())
            },
            Err(_) => Err(Fail::new("it is refused")),
        }
    }

    // It must be refused at this line, in these words.
    fn refuses(
        rt: &impl Abort,
        heap: Global,
        text: &[u8],
        line: u64,
        words: &str,
    ) -> Result<(), Fail> {
        match read(heap, text) {
            Ok(_) => Err(Fail::new("it is read")),
            Err(Failed::Memory) => Err(Fail::new("no memory")),
            Err(Failed::Refused(fault)) => {
                assert_eq!(rt; fault.line, line);
                assert_eq!(rt; Refusal::from(fault).place(), line);
                let told = TextSentence { text, fault }.to_string(heap)?;
                assert_eq!(rt; told.as_str(), words);
                Ok(())
            }
        }
    }

    #[test]
    fn every_form_is_read(rt: HostRuntime) -> Result<(), Fail> {
        let heap = rt.alloc();
        reads(&rt, heap, b"", &[0, 0, 0, 0])?;
        reads(&rt, heap, b"\r\n \t", &[0, 0, 0, 0])?;
        reads(&rt, heap, b"to 10 -5 fast 40;", &[1, 10, -5, 40])?;
        reads(&rt, heap, b"by\r\n3 0 fast\n40\t;", &[2, 3, 0, 40])?;
        reads(
            &rt,
            heap,
            b"5 times { turn{} }",
            &[0, 0, 0, 0, 6, 0, 0, 0, 4, 5, 1, 0],
        )?;
        reads(
            &rt,
            heap,
            b"at 100 0{mirror{}}",
            &[0, 0, 0, 0, 7, 0, 0, 0, 5, 100, 0, 1],
        )?;
        reads(&rt, heap, b"sub 0 { } sub 0;", &[0, 0, 0, 0, 8, 0, 0, 0])?;
        reads(
            &rt,
            heap,
            b"sub -7 { by 1 2 fast 3; }",
            &[2, 1, 2, 3, 0, 0, 0, 0],
        )?;
        let three = b"to 1 1 fast 1;to 2 2 fast 2;to 3 3 fast 3;";
        reads(
            &rt,
            heap,
            three,
            &[1, 1, 1, 1, 1, 2, 2, 2, 3, 0, 1, 0, 1, 3, 3, 3, 3, 2, 3, 0],
        )
    }

    #[test]
    fn numbers_are_cut_to_64_bits(rt: HostRuntime) -> Result<(), Fail> {
        let heap = rt.alloc();
        let most = i64::MAX;
        let least = i64::MIN;
        reads(&rt, heap, b"to 7 -0 fast 007;", &[1, 7, 0, 7])?;
        reads(
            &rt,
            heap,
            b"to 9223372036854775807 -9223372036854775808 fast 1;",
            &[1, most, least, 1],
        )?;
        reads(
            &rt,
            heap,
            b"to 9223372036854775808 -9223372036854775809 fast 1;",
            &[1, most, least, 1],
        )?;
        reads(
            &rt,
            heap,
            b"to 99999999999999999999 -99999999999999999999 fast 1;",
            &[1, most, least, 1],
        )?;
        let mut long = b"to ".to_vec(heap)?;
        for _ in 0..100 {
            long.push(b'9')?;
        }
        long.extend_from_slice(b" 0 fast 1;")?;
        reads(&rt, heap, long.as_slice(), &[1, most, 0, 1])
    }

    #[test]
    fn damage_has_its_line(rt: HostRuntime) -> Result<(), Fail> {
        let heap = rt.alloc();
        refuses(
            &rt,
            heap,
            b"to 1 1 fast 1;\n\nto 1 1 fats 1;",
            2,
            "line 3: found `fats`, expected `fast`",
        )?;
        refuses(
            &rt,
            heap,
            b"to 1 1\nfast 1",
            1,
            "line 2: found the end of the text, expected `;`",
        )?;
        refuses(
            &rt,
            heap,
            b"to +1 1 fast 1;",
            0,
            "line 1: found `+1`, expected a number",
        )?;
        refuses(
            &rt,
            heap,
            b"to 1 1 fast 1 by 1 1 fast 1;",
            0,
            "line 1: found `by`, expected `;`",
        )?;
        refuses(&rt, heap, b"5 {", 0, "line 1: found `{`, expected `times`")?;
        refuses(&rt, heap, b"turn\n(", 1, "line 2: found `(`, expected `{`")
    }

    #[test]
    fn damage_between_lines_has_its_line(rt: HostRuntime) -> Result<(), Fail> {
        let heap = rt.alloc();
        refuses(
            &rt,
            heap,
            b"turn { }\r\n}",
            1,
            "line 2: found `}`, expected the first word of a line",
        )?;
        refuses(
            &rt,
            heap,
            b"turn {\n;",
            1,
            "line 2: found `;`, expected the first word of a line, or `}`",
        )?;
        refuses(
            &rt,
            heap,
            b"to \x8012 \xff",
            0,
            "line 1: found `\\x8012`, expected a number",
        )?;
        refuses(
            &rt,
            heap,
            b"TO 1 1 fast 1;",
            0,
            "line 1: found `TO`, expected the first word of a line",
        )
    }

    #[test]
    fn sub_programs_use_those_before_them(rt: HostRuntime) -> Result<(), Fail> {
        let heap = rt.alloc();
        let names = "the number of a sub-program above, or the next one's before all other lines";
        let told = format!(in heap; "line 1: found `0`, expected {names}")?;
        // It uses itself.
        refuses(&rt, heap, b"sub 0 { sub 0; }", 0, told.as_str())?;
        let late = format!(in heap; "line 2: found `0`, expected {names}")?;
        refuses(&rt, heap, b"by 1 1 fast 1;\nsub 0 { }", 1, late.as_str())?;
        refuses(
            &rt,
            heap,
            b"sub 0 { }\nsub 0 { }",
            1,
            "line 2: found `{`, expected `;`",
        )
    }

    #[test]
    fn lines_are_joined_by_nodes(rt: HostRuntime) -> Result<(), Fail> {
        let heap = rt.alloc();
        let mut lines = Vec::new(heap);
        for _ in 0..512 {
            lines.extend_from_slice(b"by 1 2 fast 3;\n")?;
        }
        match read(heap, lines.as_slice()) {
            Ok(nodes) => assert_eq!(rt; nodes.len(), 4 * 1023),
            Err(_) => return Err(Fail::new("512 lines are refused")),
        }
        lines.extend_from_slice(b"by 1 2 fast 3;")?;
        match read(heap, lines.as_slice()) {
            Ok(nodes) => {
                assert_eq!(rt; nodes.len(), 4100);
                Ok(())
            },
            Err(_) => Err(Fail::new("513 lines are refused")),
        }
    }

    #[test]
    fn a_listing_is_written_in_its_layout(rt: HostRuntime) -> Result<(), Fail> {
        let heap = rt.alloc();
        let lines = [
            Line::BeginSub(0),
            Line::Go(Move::Incremental, -3, 0, 40),
            Line::End,
            Line::Begin(Block::Offset(100, 0)),
            Line::Begin(Block::Repeat(5)),
            Line::Use(0),
            Line::End,
            Line::End,
            Line::Go(Move::Absolute, 0, 0, 9),
        ];
        let text = write(heap, &lines)?;
        let wanted =
            "sub 0 {\n  by -3 0 fast 40;\n}\nat 100 0 {\n  5 times {\n    sub 0;\n  }\n}\nto 0 0 fast 9;\n";
        assert_eq!(rt; text.as_str(), wanted);
        Ok(())
    }
}
