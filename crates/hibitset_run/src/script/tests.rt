//! Lines of set commands: what each is read as, and the answers to a script.
mod calls;
mod streams;

use super::*;
use crate::tests::{ask, printed, say};
use std::array;
use std::test::Fail;

#[test]
fn prints_one_line_a_reply(rt: HostRuntime) {
    let rows = [
        (
            "add a 5\nadd a 5\nhas a 5\nhas a 6\nlist a\n",
            "false\ntrue\ntrue\nfalse\n5\n",
        ),
        (
            "add a 16777216\nlist a\nadd a 1073741824\n",
            "false\n16777216\nout of range\n",
        ),
        ("", ""),
        ("add a 5\nadd a 3\nlist a", "false\nfalse\n3 5\n"),
        (
            "add a 16777215\nadd h 0\nhas h 16777215\nhas a 4294967295\nlist a\nlist h\n",
            "false\nfalse\nfalse\nfalse\n16777215\n0\n",
        ),
        (
            "add a 5\nremove a 5\nremove a 5\nremove a 1073741824\ncount a\n",
            "false\ntrue\nfalse\nfalse\n0\n",
        ),
        (
            "add a 0\nadd a 262144\nadd b 0\nwithin a b\nand a b\nlist a\nsame a b\nwithin b a\nxor a b\nlist a\ncount b\n",
            "false\nfalse\nfalse\nfalse\nok\n0\ntrue\ntrue\nok\n\n1\n",
        ),
        (
            "add a 5\nxor a a\ncount a\nor a a\nsame a b\n",
            "false\nok\n0\nok\ntrue\n",
        ),
        (
            "add a 5\nand a a\nor a a\nlist a\nsame a a\nwithin a a\n",
            "false\nok\nok\n5\ntrue\ntrue\n",
        ),
        (
            "add a 1\nadd a 3\nadd b 3\nadd b 70\nor a b\nlist a\nlist b\ncount a\nclear a\nlist a\nlist b\nsame a b\nwithin a b\nwithin b a\n",
            "false\nfalse\nfalse\nfalse\nok\n1 3 70\n3 70\n3\nok\n\n3 70\nfalse\ntrue\nfalse\n",
        ),
        (
            "add h 1\nadd h 3\nadd g 3\nadd g 70\nxor h g\nlist h\nlist g\n",
            "false\nfalse\nfalse\nfalse\nok\n1 70\n3 70\n",
        ),
        (
            "add a 0\nadd a 64\nadd a 4096\nadd a 262144\nsplit a 1\nsplit a 2\nsplit a 3\nsplit a 4\nsplit b 4\nlist a\n",
            "false\nfalse\nfalse\nfalse\n1\n2\n3\n4\n1\n0 64 4096 262144\n",
        ),
        (
            "add h 1048575\nsplit h 1\nsplit h 2\nsplit h 3\nsplit h 4\n",
            "false\n1\n1\n1\n1\n",
        ),
    ];
    for (script, text) in rows {
        let (output, ended) = printed(rt.alloc(), script);
        assert_eq!(rt; ended, Ended::Done, "after {script:?}");
        assert_eq!(rt; output.as_slice(), text.as_bytes(), "after {script:?}");
    }
}

#[test]
fn takes_a_line_as_it_is_written(rt: HostRuntime) {
    let good = [
        "add a 0",
        "add h 16777215",
        "has b 4294967295",
        "add c 1000000000",
        "list d",
        "add e 16777216",
        "remove f 0",
        "remove f 4294967295",
        "count g",
        "and h a",
        "or a h",
        "xor b b",
        "clear c",
        "same d e",
        "within e d",
        "split a 1",
        "split b 2",
        "split c 3",
        "split h 4",
    ];
    for line in good {
        assert_eq!(rt; printed(rt.alloc(), line).1, Ended::Done, "after {line:?}");
    }
}

#[test]
fn refuses_every_other_line(rt: HostRuntime) {
    let bad = [
        "\n",
        " ",
        "add",
        "add a",
        "add a ",
        "add a 5 ",
        " add a 5",
        "add  a 5",
        "add a  5",
        "add a 5 6",
        "add a 5:",
        "add a /5",
        "add\u{c}a 5",
        "add a\u{c}5",
        "add 5 a",
        "add\ta\t5",
        "add i 5",
        "add A 5",
        "add ab 5",
        "Add a 5",
        "addd a 5",
        "add a 05",
        "add a 00",
        "add a +5",
        "add a -5",
        "add a 5x",
        "add a 4294967296",
        "add a 10000000000",
        "add a 5\r\n",
        "has a",
        "list",
        "list a ",
        "list a b",
        "lists a",
        "add a \u{665}",
        "remove a",
        "remove a 05",
        "remove a b",
        "remove a 5 6",
        "count",
        "count a ",
        "count a 5",
        "counts a",
        "and a",
        "and a 5",
        "and a i",
        "and a b ",
        "or a",
        "or a b c",
        "xor a",
        "xor  a b",
        "clear",
        "clear a ",
        "clear a b",
        "same a",
        "same a B",
        "within a",
        "within a bb",
        "split",
        "split a",
        "split a ",
        "split a 0",
        "split a 5",
        "split a 02",
        "split a 22",
        "split a +2",
        "split a b",
        "split a 2 ",
        "split a 2 2",
        "split 2 a",
        "split i 2",
        "splits a 2",
    ];
    for line in bad {
        let (output, ended) = printed(rt.alloc(), line);
        assert_eq!(rt; ended, Ended::BadLine(1), "after {line:?}");
        assert_eq!(rt; output.len(), 0, "after {line:?}");
    }
}

#[test]
fn names_the_first_bad_line(rt: HostRuntime) {
    let rows = [
        ("add a 05\n", 1),
        ("add a 5\n\nadd a 5\n", 2),
        ("add a 5\nadd a 6\n\n", 3),
        ("list a\nlist\nlist\n", 2),
    ];
    for (script, number) in rows {
        let (output, ended) = printed(rt.alloc(), script);
        assert_eq!(rt; ended, Ended::BadLine(number), "after {script:?}");
        assert_eq!(rt; output.len(), 0, "after {script:?}");
    }
}

#[test]
fn says_how_it_ended(rt: HostRuntime) -> Result<(), Fail> {
    let rows = [
        (Ended::Done, 0, ""),
        (Ended::BadLine(17), 2, "bad line 17"),
        (Ended::NoMemory, 3, "no memory"),
        (Ended::InputFailed, 4, "input failed"),
        (Ended::OutputFailed, 5, "output failed"),
    ];
    for (ended, status, text) in rows {
        assert_eq!(rt; ended.status(), status);
        assert_eq!(rt; ended.to_string(rt.alloc())?.as_str(), text);
    }
    Ok(())
}

#[test]
fn runs_commands_on_the_sets_that_are_there(rt: HostRuntime) -> Result<(), Fail> {
    let alloc = rt.alloc();
    let mut sets = array::from_fn(|_| BitSet::new(alloc));
    let set = Slot::C;
    let commands = [Command::Add { set, id: 70 }, Command::Add { set, id: 7 }];
    let replies = run(alloc, &mut sets, &commands)?;
    assert_eq!(rt;
        replies.as_slice(),
        [Reply::Bool(false), Reply::Bool(false)].as_slice()
    );
    let commands = [
        Command::Has { set, id: 7 },
        Command::List { set },
        Command::Has {
            set: Slot::D,
            id: 7,
        },
        Command::Add { set, id: 1 << 30 },
        Command::Remove { set, id: 7 },
        Command::Count { set },
        Command::Clear { set },
    ];
    let replies = run(alloc, &mut sets, &commands)?;
    let wanted = [
        Reply::Bool(true),
        Reply::List(vec![in alloc; 7, 70]?),
        Reply::Bool(false),
        Reply::OutOfRange,
        Reply::Bool(true),
        Reply::Count(1),
        Reply::Done,
    ];
    assert_eq!(rt; replies.as_slice(), wanted.as_slice());
    Ok(())
}

#[test]
fn splits_to_the_end(rt: HostRuntime) -> Result<(), Fail> {
    let alloc = rt.alloc();
    let mut sets = array::from_fn(|_| BitSet::new(alloc));
    let set = Slot::A;
    let commands = [
        Command::Add { set, id: 0 },
        Command::Add { set, id: 64 },
        Command::Add { set, id: 4096 },
        Command::Add { set, id: 262_144 },
    ];
    let _ = run(alloc, &mut sets, &commands)?;
    let commands = [
        Command::Split {
            set,
            layers: Layers::One,
        },
        Command::Split {
            set,
            layers: Layers::Two,
        },
        Command::Split {
            set,
            layers: Layers::Three,
        },
        Command::Split {
            set,
            layers: Layers::Four,
        },
        Command::Split {
            set: Slot::B,
            layers: Layers::Four,
        },
        Command::Count { set },
    ];
    let replies = run(alloc, &mut sets, &commands)?;
    let wanted = [
        Reply::Count(1),
        Reply::Count(2),
        Reply::Count(3),
        Reply::Count(4),
        Reply::Count(1),
        Reply::Count(4),
    ];
    assert_eq!(rt; replies.as_slice(), wanted.as_slice());
    Ok(())
}

// What became of adding an index, listing the set and asking for it: each of the two that take memory may have been
// refused.
fn is_run(replies: &[Reply]) -> bool {
    match replies {
        [Reply::Bool(false), Reply::List(list), Reply::Bool(true)] => {
            list.as_slice() == [5].as_slice()
        }
        [Reply::NoMemory, Reply::List(list), Reply::Bool(false)] => list.is_empty(),
        [Reply::Bool(false), Reply::NoMemory, Reply::Bool(true)] => true,
        _ => false,
    }
}

// The run is made between two requests of the test's own; `allocation_failures.py` refuses the requests one after the
// other. Where the room for the replies is refused no set has changed, and where a command is refused the run goes on.
// Then the run is made again.
#[test]
fn refused_and_again(rt: HostRuntime) -> Result<(), Fail> {
    let alloc = rt.alloc();
    let mut sets = array::from_fn(|_| BitSet::new(alloc));
    let set = Slot::A;
    let id = 5;
    let commands = [
        Command::Add { set, id },
        Command::List { set },
        Command::Has { set, id },
    ];
    ask(&rt)?;
    let replies = run(alloc, &mut sets, &commands);
    let refused = match &replies {
        Ok(replies) => replies.contains(&Reply::NoMemory),
        Err(AllocError) => true,
    };
    say(&rt, refused)?;
    ask(&rt)?;
    match &replies {
        Ok(replies) => assert!(rt; is_run(replies.as_slice())),
        Err(AllocError) => assert!(rt; sets.iter().all(|set| set.is_empty())),
    }
    sets[0].clear();
    let again = run(alloc, &mut sets, &commands)?;
    assert!(rt; is_run(again.as_slice()) && !again.contains(&Reply::NoMemory));
    Ok(())
}
