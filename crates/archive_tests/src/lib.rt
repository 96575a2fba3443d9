//! Texts with known verdicts, and lines written and read back.
#![tactic(auto)]

#[cfg(test)]
mod tests {
    use archive::{
        FileFault, Layer, Line, LineFault, PatternCell, judge, write_cell, write_end, write_header,
    };
    use cells::{Content, Joint};
    use std::test::Fail;
    use text::{Writer, read_number};

    // The count, or the number and the line of the fault.
    fn verdict(text: &[u8]) -> Result<u32, (u8, usize)> {
        judge(text).map_err(|fault| (fault.number(), fault.line()))
    }

    #[test]
    fn worked_examples(rt: HostRuntime) {
        assert_eq!(rt; verdict(b"pattern\t1\t1\ncell\ta\tc0\ty7\nend\t1\n"), Ok(1));
        assert_eq!(rt;
            verdict(b"pattern\t1\t1\ncell\ta\tc1\ty7\nend\t1\n"),
            Err((11, 2))
        );
        assert_eq!(rt;
            verdict(b"pattern\t1\t2\ncell\tb\t-\t-\ncell\tb\t-\t-\nend\t2\n"),
            Err((12, 3))
        );
        assert_eq!(rt;
            verdict(b"pattern\t1\t2\ncell\tb\tc1\tc1\ncell\tb\ty5\t-\nend\t2\n"),
            Ok(2)
        );
    }

    // One text for every fault.
    #[test]
    fn every_fault(rt: HostRuntime) {
        assert_eq!(rt; verdict(b"pattern\t1\tx\n"), Err((9, 1)));
        assert_eq!(rt; verdict(b"pattern\t2\t1\n"), Err((10, 1)));
        assert_eq!(rt; verdict(b"pattern\t1\t0\n"), Err((11, 1)));
        assert_eq!(rt;
            verdict(b"pattern\t1\t1\ncell\tb\ty4096\t-\nend\t1\n"),
            Err((11, 2))
        );
        assert_eq!(rt; verdict(b"pattern\t1\t3\ncell\tb\tc2\t-\n"), Err((12, 2)));
        assert_eq!(rt; verdict(b"pattern\t1\t1\ncell\tb\t-\t-\n"), Err((13, 3)));
        assert_eq!(rt;
            verdict(b"pattern\t1\t1\ncell\tb\t-\t-\nend\t1\n\n"),
            Err((14, 4))
        );
        assert_eq!(rt;
            verdict(b"pattern\t1\t1\ncell\tb\t-\t-\nend\t2\n"),
            Err((9, 3))
        );
        assert_eq!(rt; verdict(b"pattern\t1\t1\nend\t1\n"), Err((9, 2)));
        assert_eq!(rt;
            verdict(b"pattern\t1\t1\ncell\tb\t-\t-\ncell\tb\t-\t-\n"),
            Err((9, 3))
        );
    }

    // Where one line breaks two rules, the rule that is asked first is told.
    #[test]
    fn two_rules_in_one_line(rt: HostRuntime) {
        assert_eq!(rt; verdict(b"pattern\t2\tx\n"), Err((9, 1)));
        assert_eq!(rt; verdict(b"pattern\tx\t0\n"), Err((9, 1)));
        assert_eq!(rt; verdict(b"pattern\t2\t0\n"), Err((10, 1)));
        assert_eq!(rt; verdict(b"pattern\t2\t1"), Err((13, 1)));
        assert_eq!(rt;
            verdict(b"pattern\t1\t3\ncell\tb\ty4096\tc3x\n"),
            Err((9, 2))
        );
        assert_eq!(rt;
            verdict(b"pattern\t1\t3\ncell\tb\tc3x\ty4096\n"),
            Err((9, 2))
        );
        assert_eq!(rt; verdict(b"pattern\t1\t3\ncell\tb\tc2\tc3\n"), Err((11, 2)));
        assert_eq!(rt;
            verdict(b"pattern\t1\t3\ncell\tb\ty4096\tc2\n"),
            Err((11, 2))
        );
        assert_eq!(rt;
            verdict(b"pattern\t1\t1\ncell\tb\t-\t-\nend\t2\nx"),
            Err((9, 3))
        );
    }

    #[test]
    fn odd_texts(rt: HostRuntime) {
        assert_eq!(rt; verdict(b""), Err((13, 1)));
        assert_eq!(rt; verdict(b"\n"), Err((9, 1)));
        assert_eq!(rt; verdict(b"pattern\t1\t1 and no line end"), Err((13, 1)));
        assert_eq!(rt; verdict(b"pattern\t1\t100000\n"), Err((9, 1)));
        assert_eq!(rt; verdict(b"pattern\t1\t99999\n"), Err((11, 1)));
        assert_eq!(rt; verdict(b"pattern\t1\t01\n"), Err((9, 1)));
        assert_eq!(rt; verdict(b"pattern\t1\t1\r\n"), Err((9, 1)));
        assert_eq!(rt; verdict(b"pattern\t\t1\t1\n"), Err((9, 1)));
        assert_eq!(rt; verdict(b"pattern\t1\t1\ncell\tB\t-\t-\n"), Err((9, 2)));
        assert_eq!(rt; verdict(b"pattern\t1\t1\ncell\tb\t--\t-\n"), Err((9, 2)));
        assert_eq!(rt;
            verdict(b"pattern\t1\t2\ncell\tb\t-\t-\ncell\tb\tc1\t-\nend\t2\n"),
            Err((12, 3))
        );
        assert_eq!(rt;
            verdict(b"pattern\t1\t1\ncell\tb\ty4095\ty0\nend\t1\n"),
            Ok(1)
        );
    }

    #[test]
    fn a_fault_tells_its_layer(rt: HostRuntime) {
        assert_eq!(rt; judge(b"x\n"), Err(FileFault::OfLine(LineFault::Form(1))));
        assert_eq!(rt; FileFault::OfLine(LineFault::Range(3)).layer(), Layer::Line);
        assert_eq!(rt; FileFault::Numbering(3).layer(), Layer::File);
        assert_eq!(rt; LineFault::Range(3).number(), 11);
    }

    // A part of the text that is kept after the call.
    #[test]
    fn a_part_is_kept(rt: HostRuntime) -> Result<(), Fail> {
        let body = b"cell\ta\tc0\ty7";
        let Some(
            Line::Cell {
                joint: _,
                left,
                right,
            },
        ) = Line::read(body)
        else {
            return Err(Fail::new("no cell line"));
        };
        assert!(rt; left.len() == 2);
        assert_eq!(rt;
            read_number(&right[1..]),
            Some(7),
            "the right content is the part behind the last tab"
        );
        Ok(())
    }

    fn writer<'a>(buffer: &'a mut [u8], at: usize) -> Writer<'a> {
        Writer { buffer, at }
    }

    #[test]
    fn short_room_leaves_the_buffer(rt: HostRuntime) {
        let mut buffer = [1u8; 8];
        assert_eq!(rt; writer(&mut buffer, 6).number(123), None);
        assert_eq!(rt; write_end(&mut writer(&mut buffer, 3), 9), None);
        assert_eq!(rt; buffer, [1u8; 8]);
        assert_eq!(rt; write_end(&mut writer(&mut buffer, 2), 9), Some(6));
        assert_eq!(rt; buffer, *b"\x01\x01end\t9\n");
        assert_eq!(rt; write_header(&mut writer(&mut buffer, 0), 1), None);
    }

    // The line of cell i in the longest text: each content names the next cell while there is one, else the last.
    fn long_line(i: u32) -> PatternCell {
        let left = i.saturating_mul(2).saturating_add(1).min(16383);
        let right = i.saturating_mul(2).saturating_add(2).min(16383);
        PatternCell {
            joint: Joint::Above,
            left: Content::Cell(left),
            right: Content::Cell(right),
        }
    }

    #[test]
    fn longest_text(rt: HostRuntime) -> Result<(), Fail> {
        let mut text = vec![in rt.alloc(); 0u8; 400000]?;
        let mut writer = Writer {
            buffer: &mut text,
            at: 0,
        };
        let mut sum = write_header(&mut writer, 16384).ok_or("no room for the header")?;
        // Stays: the cells of a pattern that is made up here have their numbers, and nothing else to go through.
        for i in 0..16384 {
            let length = write_cell(&mut writer, long_line(i)).ok_or("no room for a cell")?;
            sum = sum.saturating_add(length);
        }
        let length = write_end(&mut writer, 16384).ok_or("no room for the end")?;
        sum = sum.saturating_add(length);
        let at = writer.at;
        assert_eq!(rt; sum, 332984);
        assert_eq!(rt; at, 332984);
        text.truncate(at);
        assert_eq!(rt; judge(&text), Ok(16384));
        Ok(())
    }
}
