// Programs in numbers, run: the worked ones, each refusal, and those that would take for ever if what says nothing was
// repeated.

#![tactic(auto)]

#[cfg(test)]
mod tests {
    use program::{Said, load, say};
    use refusal::Refusal;
    use std::test::Fail;

    // turn { to 3 1 fast 9; mirror { by 2 0 fast 9; } }
    const TURN_MIRROR: [i64; 20] = [1, 3, 1, 9, 2, 2, 0, 9, 7, 1, 0, 0, 3, 0, 2, 0, 6, 3, 0, 0];

    // mirror { to 3 1 fast 9; turn { by 2 0 fast 9; } }
    const MIRROR_TURN: [i64; 20] = [1, 3, 1, 9, 2, 2, 0, 9, 6, 1, 0, 0, 3, 0, 2, 0, 7, 3, 0, 0];

    // A chain of 1,024 nodes, of which each says what the one before it says, twice.
    fn doubling(kind: i64) -> [i64; 4096] {
        let mut nodes = [0; 4096];
        nodes[0] = kind;
        for (before, node) in nodes[4..].as_chunks_mut::<4>().0.iter_mut().enumerate() {
            *node = [3, before as i64, before as i64, 0];
        }
        nodes
    }

    // Ten nested repetitions of nothing, a million times each.
    fn repeating() -> [i64; 44] {
        let mut nodes = [0; 44];
        for (before, node) in nodes[4..].as_chunks_mut::<4>().0.iter_mut().enumerate() {
            *node = [4, 1_000_000, before as i64, 0];
        }
        nodes
    }

    #[test]
    fn worked_programs(rt: HostRuntime) {
        let mut room = [7; 7];
        assert_eq!(rt; say(&TURN_MIRROR, &mut room), Said::Says(2));
        assert_eq!(rt; room, [-1, 3, 9, -1, 1, 9, 7]);
        assert_eq!(rt; say(&MIRROR_TURN, &mut room), Said::Says(2));
        assert_eq!(rt; room, [-3, 1, 9, -3, 3, 9, 7]);
    }

    #[test]
    fn frames_and_subs(rt: HostRuntime) {
        // sub 0 { by 1 2 fast -5; }  2 times { at 10 20 { turn { sub 0; } } }  to -4 0 fast 3;
        let nodes = [
            2, 1, 2, -5, 8, 0, 0, 0, 6, 1, 0, 0, 5, 10, 20, 2, 4, 2, 3, 0, 1, -4, 0, 3, 3, 4, 5, 0,
        ];
        let mut room = [0; 9];
        assert_eq!(rt; say(&nodes, &mut room), Said::Says(3));
        assert_eq!(rt; room, [-2, 1, 0, -4, 2, 0, -4, 0, 3]);
    }

    #[test]
    fn refused_shapes(rt: HostRuntime) {
        let mut room = [7; 3];
        assert_eq!(rt; say(&[], &mut room), Said::Refused(Refusal::Shape(0)));
        assert_eq!(rt;
            say(&[2_000_000; 5], &mut room),
            Said::Refused(Refusal::Shape(5))
        );
        assert_eq!(rt; say(&[0; 4096], &mut room), Said::Says(0));
        assert_eq!(rt;
            say(&[0; 4100], &mut room),
            Said::Refused(Refusal::Shape(4100))
        );
        assert_eq!(rt; room, [7; 3]);
    }

    #[test]
    fn refused_numbers(rt: HostRuntime) {
        let mut room = [7; 3];
        assert_eq!(rt;
            say(&[1_000_001, 0, 0, 0], &mut room),
            Said::Refused(Refusal::Number(0))
        );
        assert_eq!(rt;
            say(&[9, 0, 0, -1_000_001], &mut room),
            Said::Refused(Refusal::Number(3))
        );
        assert_eq!(rt;
            say(&[1, 1_000_000, -1_000_000, 0], &mut room),
            Said::Says(1)
        );
        assert_eq!(rt; room, [1_000_000, -1_000_000, 0]);
    }

    #[test]
    fn refused_nodes(rt: HostRuntime) {
        let mut room = [7; 3];
        assert_eq!(rt;
            say(&[9, 0, 0, 0], &mut room),
            Said::Refused(Refusal::Node(0))
        );
        assert_eq!(rt;
            say(&[0, 5, 5, 5, 3, 0, 1, 0], &mut room),
            Said::Refused(Refusal::Node(1))
        );
        assert_eq!(rt; say(&[0, 0, 0, 0, 6, -3, 9, 9], &mut room), Said::Says(0));
        assert_eq!(rt; room, [7; 3]);
    }

    #[test]
    fn rooms(rt: HostRuntime) {
        let mut room = [7; 6];
        assert_eq!(rt; say(&TURN_MIRROR, &mut room), Said::Says(2));
        let mut short = [7; 5];
        assert_eq!(rt;
            say(&TURN_MIRROR, &mut short),
            Said::Refused(Refusal::Room(2))
        );
        assert_eq!(rt; short, [7; 5]);
        assert_eq!(rt;
            say(&doubling(1), &mut short),
            Said::Refused(Refusal::Room(1 << 40))
        );
        assert_eq!(rt;
            say(&[1, 0, 0, 0, 4, 1_000_000, 0, 0], &mut short),
            Said::Refused(Refusal::Room(1_000_000))
        );
    }

    #[test]
    fn reach(rt: HostRuntime) {
        let mut room = [7; 3003];
        assert_eq!(rt;
            say(&[2, 1_000_000, 0, 9, 4, 1000, 0, 0], &mut room),
            Said::Says(1000)
        );
        assert_eq!(rt; room[2997], 1_000_000_000);
        room[0] = 7;
        assert_eq!(rt;
            say(&[2, 0, -1_000_000, 9, 4, 1001, 0, 0], &mut room),
            Said::Refused(Refusal::Reach(1000))
        );
        assert_eq!(rt; room[0], 7);
        assert_eq!(rt; room[3000], 7);
    }

    #[test]
    fn nothing_takes_no_time(rt: HostRuntime) {
        assert_eq!(rt; say(&repeating(), &mut []), Said::Says(0));
        assert_eq!(rt; say(&doubling(0), &mut []), Said::Says(0));
    }

    #[test]
    fn loads(rt: HostRuntime) -> Result<(), Fail> {
        let targets = load(rt.alloc(), &TURN_MIRROR, 2)?;
        assert!(rt; targets.len() == 2);
        assert_eq!(rt; targets[1].to.y, 1);
        assert!(rt; load(rt.alloc(), &TURN_MIRROR, 1).is_err());
        Ok(())
    }
}
