use crate::given::{ample, run};
use crate::noted::digit;
use std::alloc::{AllocError, Global};
use std::process::Abort;
use std::test::Fail;
use vc_session::Status;

// What is opened, how many objects are put into each of three dictionaries, and at most how many compares the commands
// behind them make.
struct Cost {
    opened: &'static [u8],
    n: u32,
    asked: &'static [u8],
    most: u32,
}

const ORDERED: &[u8] =
    b"open r best 1\nopen s best 2\ndict a oset r 4\ndict b oset s 4\ndict c oset r 4\ndict d obag s 4\nview a b\nview b c\n";

const COSTS: &[Cost] = &[
    // A walk along one dictionary: at most a compare for each object in an ordered method, and none in another.
    Cost {
        opened: b"open r best 1\ndict a set r 4\ndict b bag r 4\ndict c list r 4\n",
        n: 1_000,
        asked: b"walk a\nwalk b\nwalk c\n",
        most: 0,
    },
    Cost {
        opened: b"open r best 1\ndict a stack r 4\ndict b queue r 4\ndict c list r 4\n",
        n: 1_000,
        asked: b"walk a\nwalk b\nwalk c\n",
        most: 0,
    },
    Cost {
        opened: b"open r best 1\ndict a oset r 4\ndict b obag r 4\ndict c list r 4\n",
        n: 1_000,
        asked: b"walk a\nwalk b\n",
        most: 2_000,
    },
    // Three ordered layers: at most 5 for each object of a layer and each doubling of their number.
    Cost {
        opened: ORDERED,
        n: 1_000,
        asked: b"walk a\n",
        most: 5 * 1_000 * 10,
    },
    Cost {
        opened: ORDERED,
        n: 2_000,
        asked: b"walk a\n",
        most: 5 * 2_000 * 11,
    },
    // A bag of chains of few objects: at most 2 for each of three looks by five keys.
    Cost {
        opened: b"open r best 1\nopen s best 2\ndict a bag r 4\ndict b bag s 4\ndict c bag r 4\n",
        n: 1_000,
        asked: b"search a 00000\nnext a 00000\nprev a 00000\nsearch a 00778\nnext a 00778\nprev a 00778\n\
search a 01000\nnext a 01000\nprev a 01000\nsearch a 01222\nnext a 01222\nprev a 01222\n\
search a 00001\nnext a 00001\nprev a 00001\n",
        most: 5 * 3 * 2,
    },
];

// The line that inserts a number, by its last five digits.
fn put_line(script: &mut Vec<u8>, dict: u8, n: u32) -> Result<(), AllocError> {
    let line = [
        dict,
        b' ',
        digit(n / 10_000),
        digit(n / 1_000),
        digit(n / 100),
        digit(n / 10),
        digit(n),
        b'\n',
    ];
    script.extend_from_slice(b"insert ")?;
    script.extend_from_slice(&line)
}

// Puts every second number from 0 on, every second one from 1 on, and every fourth one, in an order that jumps.
fn filled(alloc: Global, opened: &[u8], n: u32) -> Result<Vec<u8>, AllocError> {
    let mut script = opened.to_vec(alloc)?;
    let mut i: u32 = 0;
    for _put in 0..n {
        put_line(&mut script, b'a', i.wrapping_mul(2))?;
        put_line(&mut script, b'b', i.wrapping_mul(2).wrapping_add(1))?;
        put_line(&mut script, b'c', i.wrapping_mul(4))?;
        i = i.wrapping_add(389);
        if i >= n {
            i = i.wrapping_sub(n);
        }
    }
    Ok(script)
}

// How many compares a script makes.
fn compares(rt: &impl Abort, alloc: Global, script: &[u8]) -> Result<u32, AllocError> {
    let ended = run(rt, alloc, ample(script))?;
    assert!(rt; ended.status == Status::Ok);
    Ok(ended.compares)
}

#[test]
fn costs(rt: HostRuntime) -> Result<(), Fail> {
    let alloc = rt.alloc();
    for cost in COSTS {
        let mut script = filled(alloc, cost.opened, cost.n)?;
        let before = compares(&rt, alloc, script.as_slice())?;
        script.extend_from_slice(cost.asked)?;
        let made = compares(&rt, alloc, script.as_slice())?.wrapping_sub(before);
        assert!(rt; made <= cost.most, "{made}");
    }
    Ok(())
}
