//! Store commands as text.
use crate::script::Ended;
use crate::tests::printed;
use std::alloc::{AllocError, Global};
use std::test::Fail;

#[test]
fn prints_one_line_a_reply(rt: HostRuntime) {
    let rows = [
        (
            "store\nput p 5 77\nput p 9 1\nput q 9 2\nput q 1073741824 3\njoin p q\ntake p 9\njoin p q\nget p 9\nput p 5 78\njoin p p\n",
            "none\nnone\nnone\nout of range\n9:1:2\n1\n\nnone\n77\n5:78:78\n",
        ),
        (
            "store\nput p 0 1\nput p 16777216 1\nput q 1 1\nput q 16777217 1\njoin p q\n",
            "none\nnone\nnone\nnone\n\n",
        ),
        ("store", ""),
        ("store\n", ""),
        (
            "store\nput q 16777215 4294967295\nput p 16777215 0\nput p 3 1\nput q 3 2\njoin p q\njoin q p\nget q 16777215",
            "none\nnone\nnone\nnone\n3:1:2 16777215:0:4294967295\n3:2:1 16777215:4294967295:0\n4294967295\n",
        ),
        (
            "store\nget p 0\ntake q 4294967295\njoin q q\n",
            "none\nnone\n\n",
        ),
        (
            "store\nput p 7 1\nput p 7 2\ntake p 7\ntake p 7\nget p 7\nput p 7 3\n",
            "none\n1\n2\nnone\nnone\nnone\n",
        ),
        (
            "store\nput p 0 0\nput q 0 0\njoin p q\nget p 0\nput p 0 1\ntake q 0\n",
            "none\nnone\n0:0:0\n0\n0\n0\n",
        ),
    ];
    for (script, text) in rows {
        let (output, ended) = printed(rt.alloc(), script);
        assert_eq!(rt; ended, Ended::Done, "after {script:?}");
        assert_eq!(rt; output.as_slice(), text.as_bytes(), "after {script:?}");
    }
}

// How many indices both columns have.
const PAIRS: u32 = 10_000;

// A script that gives each of these indices two values and joins the columns, and what it prints.
fn many_pairs(alloc: Global) -> Result<(String, String), AllocError> {
    let mut script = String::from_str(alloc, "store\n")?;
    let mut replies = String::new(alloc);
    let mut pairs = String::new(alloc);
    let mut space = "";
    for id in 0..PAIRS {
        write!(script, "put p {id} 0\nput q {id} 7\n")?;
        write!(replies, "none\nnone\n")?;
        write!(pairs, "{space}{id}:0:7")?;
        space = " ";
    }
    script.push_str("join p q\n")?;
    write!(replies, "{pairs}\n")?;
    Ok((script, replies))
}

#[test]
fn prints_many_pairs(rt: HostRuntime) -> Result<(), Fail> {
    let (script, replies) = many_pairs(rt.alloc())?;
    let (output, ended) = printed(rt.alloc(), &script);
    assert!(rt; ended == Ended::Done && output.as_slice() == replies.as_bytes());
    Ok(())
}

#[test]
fn refuses_every_other_line(rt: HostRuntime) -> Result<(), Fail> {
    let bad = [
        "\n",
        " ",
        "add a 5",
        "list a",
        "store",
        "store ",
        "put",
        "put p",
        "put p 5",
        "put p 5 ",
        "put p 5 7 ",
        " put p 5 7",
        "put  p 5 7",
        "put p  5 7",
        "put p 5  7",
        "put p 5 7 8",
        "put p 5 7\r\n",
        "put\tp 5 7",
        "put r 5 7",
        "put P 5 7",
        "put pq 5 7",
        "put a 5 7",
        "put 5 p 7",
        "put p 05 7",
        "put p 5 07",
        "put p 5 00",
        "put p +5 7",
        "put p 5 -7",
        "put p 5 4294967296",
        "put p 4294967296 7",
        "put p 5 10000000000",
        "put p 5 x",
        "Put p 5 7",
        "puts p 5 7",
        "get",
        "get p",
        "get p 5 7",
        "get p q",
        "get p 05",
        "take p",
        "take p 5 7",
        "take q q",
        "take q ",
        "join p",
        "join p 5",
        "join p q p",
        "join p q ",
        "join  p q",
        "join q r",
        "join pq",
        "joins p q",
    ];
    for line in bad {
        let script = format!(in rt.alloc(); "store\nput p 5 7\n{line}")?;
        let (output, ended) = printed(rt.alloc(), &script);
        assert_eq!(rt; ended, Ended::BadLine(3), "after {line:?}");
        assert_eq!(rt; output.len(), 0, "after {line:?}");
    }
    Ok(())
}

#[test]
fn names_the_first_bad_line(rt: HostRuntime) {
    let rows = [
        ("store\nadd a 5\n", 2),
        ("store\nput p 5 7\nput p 5\nput p\n", 3),
        ("store\n\n", 2),
        ("store\nstore\n", 2),
        ("store \nput p 5 7\n", 1),
        ("stores\n", 1),
        (" store\n", 1),
        ("Store\n", 1),
        ("store\r\nput p 5 7\r\n", 1),
        ("\nstore\n", 1),
        ("add a 5\nstore\n", 2),
        ("put p 5 7\n", 1),
    ];
    for (script, number) in rows {
        let (output, ended) = printed(rt.alloc(), script);
        assert_eq!(rt; ended, Ended::BadLine(number), "after {script:?}");
        assert_eq!(rt; output.len(), 0, "after {script:?}");
    }
}
