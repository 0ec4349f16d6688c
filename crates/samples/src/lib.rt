// Procedure files as words, and what is printed of them.
#![tactic(auto)]

#[cfg(test)]
mod tests {
    use arenas::entry::Entry;
    use boards::{BitBoard, Board, ChangeBoard, fresh};
    use game::fault::Stop;
    use game::goal::Goal;
    use game::system::System;
    use goals::evaluate::planned;
    use procedure::reading::read_whole;
    use std::alloc::{AllocError, Global};
    use std::fmt::Write;
    use std::process::Abort;
    use std::test::Fail;
    use verdicts::file::judge_file;

    // The van and its counter.
    const VAN: [u32; 24] = [
        0x10020201, 0x20000200, 0x30000003, 0x30000101, 0x41000001, 0x52000001, 0x20010200,
        0x30000003, 0x30000101, 0x42000001, 0x52010001, 0x51000001, 0x60000000, 0x71000000,
        0x53010001, 0x71000001, 0x53000001, 0x81000000, 0x81010000, 0x80000000, 0x8A020200,
        0x8A030200, 0x85020100, 0x90000017,
    ];

    fn bytes_of(heap: Global, words: &[u32]) -> Result<Vec<u8>, AllocError> {
        words
            .iter()
            .flat_map(|word| word.to_le_bytes())
            .collect(heap)
    }

    // What the program prints of a file.
    fn printed(heap: Global, file: &[u8]) -> Result<String, Fail> {
        let mut text = String::new(heap);
        match judge_file(heap, file) {
            Ok(lines) => {
                for line in &lines {
                    writeln!(text, "{line}")?;
                }
            }
            Err(Stop::Refused(fault)) => {
                writeln!(text, "{fault}")?;
            }
            Err(Stop::Memory) => return Err(Fail::new("out of memory")),
        }
        Ok(text)
    }

    fn prints(rt: &impl Abort, heap: Global, words: &[u32], expected: &str) -> Result<(), Fail> {
        let file = bytes_of(heap, words)?;
        let text = printed(heap, &file)?;
        assert_eq!(rt; text.as_str(), expected);
        Ok(())
    }

    #[test]
    fn the_van(rt: HostRuntime) -> Result<(), Fail> {
        prints(
            &rt,
            rt.alloc(),
            &VAN,
            "0 2/4 no\n1 2/4 no\n2 4/4 yes\n3 3/4 no\n4 4/4 yes\n5 0/4 no\n",
        )
    }

    // Three agents with so many local states, action 0 only, one start and the goal true.
    fn crowd(heap: Global, locals: [u32; 3]) -> Result<Vec<u32>, Fail> {
        let mut words = Vec::new(heap);
        words.push(0x10030001)?;
        for (agent, many) in (0..3u32).zip(locals) {
            words.push(0x20000000 | (agent << 16) | (many << 8))?;
            for local in 0..many {
                words.push(0x30000001 | (local << 8))?;
            }
        }
        words.push(0x60000000)?;
        words.push(0x80000000)?;
        let count = u32::try_from(words.len())?;
        words.push(0x90000000 | count)?;
        Ok(words)
    }

    #[test]
    fn a_thousand_states(rt: HostRuntime) -> Result<(), Fail> {
        let heap = rt.alloc();
        let fits = crowd(heap, [16, 16, 4])?;
        prints(&rt, heap, &fits, "0 1024/1024 yes\n")?;
        let passes = crowd(heap, [16, 16, 5])?;
        prints(&rt, heap, &passes, "refused 6 S 35\n")?;
        let wide = crowd(heap, [16, 16, 17])?;
        prints(&rt, heap, &wide, "refused 4 R 35\n")
    }

    #[test]
    fn cut_at_each_word(rt: HostRuntime) -> Result<(), Fail> {
        let heap = rt.alloc();
        prints(&rt, heap, &[], "refused 1 W 0\n")?;
        for k in 1..24usize {
            let expected = format!(in heap; "refused 2 W {k}\n")?;
            prints(&rt, heap, &VAN[0..k], &expected)?;
        }
        let mut file = bytes_of(heap, &VAN)?;
        file.truncate(95);
        let text = printed(heap, &file)?;
        assert_eq!(rt; text.as_str(), "refused 1 W 23\n");
        Ok(())
    }

    // What is printed of the van's file with one word changed.
    fn changed(rt: &impl Abort, heap: Global, place: usize, word: u32) -> Result<String, Fail> {
        let mut words = VAN;
        assert!(rt; place < 24);
        words[place] = word;
        let file = bytes_of(heap, &words)?;
        printed(heap, &file)
    }

    // The van's file with the word at the place changed is refused so.
    fn refused(rt: &impl Abort, heap: Global, table: &[(usize, u32, &str)]) -> Result<(), Fail> {
        for &(place, word, refusal) in table {
            let text = changed(rt, heap, place, word)?;
            let expected = format!(in heap; "refused {refusal}\n")?;
            assert_eq!(rt; text, expected);
        }
        Ok(())
    }

    #[test]
    fn damaged_system_words(rt: HostRuntime) -> Result<(), Fail> {
        let table = [
            (0, 0x20020201, "2 W 0"),
            (0, 0x00020201, "2 W 0"),
            (0, 0x11020201, "3 W 0"),
            (0, 0x11070201, "3 W 0"),
            (0, 0x10000201, "4 R 0"),
            (0, 0x10070201, "4 R 0"),
            (0, 0x10021D01, "4 R 0"),
            (0, 0x10020200, "4 R 0"),
            (0, 0x10020202, "4 R 0"),
            (0, 0x10020101, "4 R 15"),
            (0, 0x10010201, "2 W 6"),
            (0, 0x10060201, "2 W 12"),
        ];
        refused(&rt, rt.alloc(), &table)
    }

    #[test]
    fn damaged_agent_and_protocol_words(rt: HostRuntime) -> Result<(), Fail> {
        let table = [
            (1, 0x30000200, "2 W 1"),
            (1, 0x20000201, "3 W 1"),
            (1, 0x21000200, "3 W 1"),
            (1, 0x20010200, "4 R 1"),
            (1, 0x20000000, "4 R 1"),
            (1, 0x20001100, "4 R 1"),
            (1, 0x20000100, "2 W 3"),
            (1, 0x20000300, "2 W 4"),
            (6, 0x20000200, "4 R 6"),
            (6, 0x20020200, "4 R 6"),
            (6, 0x20010201, "3 W 6"),
            (2, 0x20010200, "2 W 2"),
            (2, 0x30010003, "3 W 2"),
            (2, 0x31000003, "3 W 2"),
            (2, 0x30000103, "4 R 2"),
            (2, 0x30000010, "4 R 2"),
            (3, 0x30000100, "4 R 3"),
            (3, 0x30000003, "4 R 3"),
            (3, 0x30000110, "4 R 3"),
        ];
        refused(&rt, rt.alloc(), &table)
    }

    #[test]
    fn damaged_rule_lines(rt: HostRuntime) -> Result<(), Fail> {
        let table = [
            (4, 0x41000101, "3 W 4"),
            (4, 0x41010001, "3 W 4"),
            (4, 0x49010001, "3 W 4"),
            (4, 0x49000001, "4 R 4"),
            (4, 0x41000002, "4 R 4"),
            (4, 0x40000001, "2 W 5"),
            (4, 0x42000001, "2 W 6"),
            (4, 0x48000001, "2 W 6"),
            (9, 0x43000001, "2 W 12"),
            (5, 0x30000001, "2 W 5"),
            (5, 0x52000101, "3 W 5"),
            (5, 0x50010001, "3 W 5"),
            (11, 0x51010001, "3 W 11"),
            (5, 0x54010000, "3 W 5"),
            (5, 0x54000100, "3 W 5"),
            (5, 0x52020001, "4 R 5"),
            (5, 0x52000004, "4 R 5"),
            (5, 0x50000002, "4 R 5"),
            (5, 0x51000002, "4 R 5"),
            (5, 0x53000001, "4 R 5"),
            (5, 0x54000000, "4 R 5"),
            (5, 0x5F000000, "4 R 5"),
        ];
        refused(&rt, rt.alloc(), &table)
    }

    #[test]
    fn damaged_starts_and_label_lines(rt: HostRuntime) -> Result<(), Fail> {
        let table = [
            (12, 0x71000000, "2 W 12"),
            (12, 0x80000000, "2 W 12"),
            (12, 0x90000017, "2 W 12"),
            (12, 0x60010000, "3 W 12"),
            (12, 0x61000000, "3 W 12"),
            (12, 0x60000004, "4 R 12"),
            (12, 0x60000100, "4 R 12"),
            (13, 0x71010000, "3 W 13"),
            (13, 0x71000100, "3 W 13"),
            (13, 0x71000002, "4 R 13"),
            (13, 0x79000000, "4 R 13"),
            (13, 0x70000000, "2 W 14"),
            (14, 0x53010101, "3 W 14"),
            (14, 0x50000001, "4 R 14"),
            (14, 0x51000001, "4 R 14"),
            (14, 0x52010001, "4 R 14"),
            (14, 0x53020001, "4 R 14"),
            (14, 0x53010002, "4 R 14"),
            (15, 0x60000000, "2 W 15"),
        ];
        refused(&rt, rt.alloc(), &table)
    }

    #[test]
    fn damaged_goals_and_end(rt: HostRuntime) -> Result<(), Fail> {
        let table = [
            (17, 0x41000001, "2 W 17"),
            (18, 0x71000000, "2 W 18"),
            (18, 0x60000000, "2 W 18"),
            (17, 0x8B000000, "22 C 17"),
            (17, 0x80010000, "22 C 17"),
            (17, 0x81000100, "22 C 17"),
            (17, 0x82000000, "23 C 17"),
            (17, 0x81020000, "24 C 17"),
            (18, 0x81020000, "24 C 18"),
            (20, 0x8A040200, "24 C 20"),
            (22, 0x90000016, "8 S 23"),
            (22, 0x90000017, "8 S 22"),
            (23, 0x80000000, "2 W 24"),
            (23, 0xA0000017, "2 W 23"),
            (23, 0xF0000017, "2 W 23"),
            (23, 0x91000017, "3 W 23"),
            (23, 0x90010017, "3 W 23"),
            (23, 0x91000018, "3 W 23"),
            (23, 0x90000016, "8 S 23"),
            (23, 0x90000018, "8 S 23"),
        ];
        refused(&rt, rt.alloc(), &table)
    }

    // Numbers at the ends of their ranges.
    #[test]
    fn ends_of_ranges(rt: HostRuntime) -> Result<(), Fail> {
        let table = [
            (0, 0x10021C01),
            (2, 0x3000000F),
            (3, 0x30000108),
            (4, 0x41000000),
            (5, 0x52010003),
            (5, 0x50000001),
            (5, 0x51000000),
            (12, 0x60000003),
            (13, 0x71000001),
            (14, 0x53000000),
        ];
        for (place, word) in table {
            let text = changed(&rt, rt.alloc(), place, word)?;
            assert!(rt; !text.as_str().starts_with("refused"));
        }
        Ok(())
    }

    // The van's file read: agent 0 leaves by action 1; the counter counts by action 1 when the van is away.
    #[test]
    fn the_van_moves(rt: HostRuntime) -> Result<(), Fail> {
        let heap = rt.alloc();
        let file = bytes_of(heap, &VAN)?;
        let Ok(procedure) = read_whole(heap, &file) else {
            return Err(Fail::new("the van's file is refused"));
        };
        assert_eq!(rt; procedure.system.next(0, 5), 1);
        assert_eq!(rt; procedure.system.next(1, 4), 3);
        Ok(())
    }

    // Goal 3 of the van's file: at state 1 agent 1 counts, and the goal is met after one step.
    #[test]
    fn plan_of_the_counter(rt: HostRuntime) -> Result<(), Fail> {
        let heap = rt.alloc();
        let file = bytes_of(heap, &VAN)?;
        let Ok(procedure) = read_whole(heap, &file) else {
            return Err(Fail::new("the van's file is refused"));
        };
        let mut board: BitBoard = fresh(heap, 4)?;
        for state in 0..4 {
            board.put(2, state);
            if procedure.system.holds(0, state) {
                board.put(0, state);
            }
        }
        let system = &procedure.system;
        let Some(entries) = planned(heap, system, &board, Goal::Until(2, 2, 0))? else {
            return Err(Fail::new("a goal of U has no plan"));
        };
        assert_eq!(rt; entries.len(), 4);
        assert_eq!(rt; entries.iter().filter(|entry| entry.granted).count(), 3);
        assert_eq!(rt;
            entries[1],
            Entry {
                granted: true,
                rank: 1,
                choice: 4
            }
        );
        assert!(rt; planned(heap, system, &board, Goal::True)?.is_none());
        Ok(())
    }

    #[test]
    fn fresh_boards(rt: HostRuntime) -> Result<(), Fail> {
        let bits: BitBoard = fresh(rt.alloc(), 1024)?;
        assert_eq!(rt; bits.rows(), 64);
        let points: ChangeBoard = fresh(rt.alloc(), 1024)?;
        assert_eq!(rt; points.rows(), 64);
        Ok(())
    }

    #[test]
    fn one_word_more(rt: HostRuntime) -> Result<(), Fail> {
        let heap = rt.alloc();
        let mut words = VAN.to_vec(heap)?;
        words.push(0)?;
        prints(&rt, heap, &words, "refused 8 S 24\n")?;
        assert!(rt; words.len() == 25);
        words[23] = 0x85000100;
        words[24] = 0x90000018;
        prints(&rt, heap, &words, "refused 24 C 23\n")
    }
}
