use crate::given::{Given, ample, is_run};
use crate::noted::Answers;
use std::alloc::{AllocError, Global};
use std::process::Abort;
use std::test::Fail;
use vc_session::Status;

// A script over disciplines that grow or don't; the lends and extensions that each of them refuses, the one that finds no
// memory, with which the run ends, or 0, and how many exceptions it makes; what is written; and what is asked of them.
struct Row {
    grows: bool,
    refused: &'static [u64],
    without_memory: u64,
    exceptions: u64,
    script: &'static [u8],
    out: &'static [u8],
    notes: &'static [u8],
}

// In version 1 a refused lend isn't made again, and the next command asks anew.
const ONCE: &[Row] = &[
    Row {
        grows: false,
        refused: &[2, 3, 4, 5, 6, 7],
        without_memory: 0,
        exceptions: 0,
        script: b"open r best 1\nalloc r a 4000\nalloc r b 4000\nalign r b 4000 64\nresize r a 5000 move\nalloc r b 2000000\nalign r b 2000000 4096\nresize r a 2000000 move\nalloc r b 4000\nalloc q a 1\nalloc r c 0\nsegments r\nclose r\n",
        out: b"r open\na 1:32\nrefused: no segment\nrefused: no segment\nrefused: no segment\nrefused: no segment\nrefused: no segment\nrefused: no segment\nb 2:32\nrefused: no region\nrefused: size\nsegments 2 1:4096 2:4096\nr closed 2\n",
        notes: b"RulLLLLLLl<111<121uWR",
    },
    Row {
        grows: false,
        refused: &[2, 3],
        without_memory: 0,
        exceptions: 0,
        script: b"open r pool 1\nalloc r a 4000\nalloc r b 4000\nalloc r b 4000\nalloc r b 4000\n",
        out: b"r open\na 1:32\nrefused: no segment\nrefused: no segment\nb 2:32\n",
        notes: b"RulLLlWR<111<121u",
    },
    Row {
        grows: false,
        refused: &[1],
        without_memory: 0,
        exceptions: 0,
        script: b"open r pool 1\nalloc r a 2000000\nalloc r a 4000\n",
        out: b"r open\nrefused: no segment\na 1:32\n",
        notes: b"RuLlWR<111u",
    },
    Row {
        grows: false,
        refused: &[2, 3, 4, 5],
        without_memory: 0,
        exceptions: 0,
        script: b"open r last 1\nalloc r a 4000\nalloc r b 4000\nresize r a 5000 move\nalloc r b 2000000\nresize r a 2000000 move\nalloc r b 4000\n",
        out: b"r open\na 1:32\nrefused: no segment\nrefused: no segment\nrefused: no segment\nrefused: no segment\nb 2:32\n",
        notes: b"RulLLLLlWR<111<121u",
    },
    Row {
        grows: false,
        refused: &[2, 3, 4, 5],
        without_memory: 0,
        exceptions: 0,
        script: b"open r debug 1\nalloc r a 3900\nalloc r b 3900\nresize r a 5000 move\nalloc r b 2000000\nresize r a 2000000 move\nalloc r b 3900\n",
        out: b"r open\na 1:64\nrefused: no segment\nrefused: no segment\nrefused: no segment\nrefused: no segment\nb 2:64\n",
        notes: b"RulLLLLlWR<111<121u",
    },
    Row {
        grows: false,
        refused: &[2, 3, 4, 5, 6, 7],
        without_memory: 0,
        exceptions: 0,
        script: b"open r profile 1\nalloc r a 4000\nalloc r b 4000\nalign r b 4000 64\nresize r a 5000 move\nalloc r b 2000000\nalign r b 2000000 4096\nresize r a 2000000 move\nalloc r b 4000\n",
        out: b"r open\na 1:32\nrefused: no segment\nrefused: no segment\nrefused: no segment\nrefused: no segment\nrefused: no segment\nrefused: no segment\nb 2:32\n",
        notes: b"RulLLLLLLlWR<111<121u",
    },
    // For objects and tables.
    Row {
        grows: false,
        refused: &[2, 3, 4, 5, 6],
        without_memory: 0,
        exceptions: 0,
        script: b"open r best 1\nalloc r a 4000\ndict d list r 4\ninsert d x\nappend d x\nattach d x\nmethod d set\ndict e set r 4\n",
        out: b"r open\na 1:32\nd open\nrefused: no segment for object\nrefused: no segment for object\nrefused: no segment for object\nrefused: no segment for table\nrefused: no segment for table\n",
        notes: b"Rul+4x L+4x LLLLWR<111u",
    },
    // The table that a 33rd object needs gets no segment, and then gets one.
    Row {
        grows: false,
        refused: &[2],
        without_memory: 0,
        exceptions: 0,
        script: b"open r best 1\ndict d bag r 4\ninsert d x\ninsert d x\ninsert d x\ninsert d x\ninsert d x\ninsert d x\ninsert d x\ninsert d x\ninsert d x\ninsert d x\ninsert d x\ninsert d x\ninsert d x\ninsert d x\ninsert d x\ninsert d x\ninsert d x\ninsert d x\ninsert d x\ninsert d x\ninsert d x\ninsert d x\ninsert d x\ninsert d x\ninsert d x\ninsert d x\ninsert d x\ninsert d x\ninsert d x\ninsert d x\ninsert d x\ninsert d x\nalloc r f 1840\ninsert d y\ncount d\ninsert d y\nsegments r\ncount d\n",
        out: b"r open\nd open\nnew x\nnew x\nnew x\nnew x\nnew x\nnew x\nnew x\nnew x\nnew x\nnew x\nnew x\nnew x\nnew x\nnew x\nnew x\nnew x\nnew x\nnew x\nnew x\nnew x\nnew x\nnew x\nnew x\nnew x\nnew x\nnew x\nnew x\nnew x\nnew x\nnew x\nnew x\nnew x\nf 1:2240\nrefused: no segment for table\n32\nnew y\nsegments 2 1:4096 2:4096\n33\n",
        notes: b"Rul+4x +4x +4x +4x +4x +4x +4x +4x +4x +4x +4x +4x +4x +4x +4x +4x +4x +4x +4x +4x +4x +4x +4x +4x +4x +4x +4x +4x +4x +4x +4x +4x +4y L+4y lWR-4x -4x -4x -4x -4x -4x -4x -4x -4x -4x -4x -4x -4x -4x -4x -4x -4x -4x -4x -4x -4x -4x -4x -4x -4x -4x -4x -4x -4x -4x -4x -4x -4y <111<121u",
    },
    // The first of three, and all.
    Row {
        grows: false,
        refused: &[1],
        without_memory: 0,
        exceptions: 0,
        script: b"open r best 1\nalloc r a 4000\nalloc r b 4000\nalloc r c 4000\nclose r\n",
        out: b"r open\nrefused: no segment\nb 1:32\nc 2:32\nr closed 2\n",
        notes: b"RuLll<111<121uWR",
    },
    Row {
        grows: false,
        refused: &[1, 2, 3],
        without_memory: 0,
        exceptions: 0,
        script: b"open r best 1\nalloc r a 4000\nalloc r b 4000\nalloc r c 4000\nclose r\n",
        out: b"r open\nrefused: no segment\nrefused: no segment\nrefused: no segment\nr closed 0\n",
        notes: b"RuLLLuWR",
    },
    // A discipline is unarmed at each opening.
    Row {
        grows: false,
        refused: &[2],
        without_memory: 0,
        exceptions: 0,
        script: b"vc 1\nopen r best 1\nalloc r a 4000\nalloc r b 4000\nclose r\nopen s best 1\n",
        out: b"r open\na 1:32\nrefused: no segment\nr closed 1\ns open\n",
        notes: b"RulL<111uuWRu",
    },
];

// Nor is one that finds no memory, with which the run ends: a further one would find some.
const WITHOUT_MEMORY: &[Row] = &[
    Row {
        grows: false,
        refused: &[],
        without_memory: 1,
        exceptions: 0,
        script: b"open r best 1\nalloc r a 100\nalloc r b 1\n",
        out: b"r open\n",
        notes: b"RumWuE",
    },
    Row {
        grows: false,
        refused: &[],
        without_memory: 1,
        exceptions: 0,
        script: b"open r best 1\nalign r a 100 64\nalloc r b 1\n",
        out: b"r open\n",
        notes: b"RumWuE",
    },
    Row {
        grows: false,
        refused: &[],
        without_memory: 2,
        exceptions: 0,
        script: b"open r best 1\nalloc r a 100\nresize r a 5000 move\nalloc r b 1\n",
        out: b"r open\na 1:32\n",
        notes: b"RulmW<111uE",
    },
    Row {
        grows: false,
        refused: &[],
        without_memory: 1,
        exceptions: 0,
        script: b"open r pool 1\nalloc r a 2000000\nalloc r b 1\n",
        out: b"r open\n",
        notes: b"RumWuE",
    },
    Row {
        grows: false,
        refused: &[],
        without_memory: 2,
        exceptions: 0,
        script: b"open r last 1\nalloc r a 100\nresize r a 2000000 move\nalloc r b 1\n",
        out: b"r open\na 1:32\n",
        notes: b"RulmW<111uE",
    },
    Row {
        grows: false,
        refused: &[],
        without_memory: 2,
        exceptions: 0,
        script: b"open r debug 1\nalloc r a 100\nresize r a 2000000 move\nalloc r b 1\n",
        out: b"r open\na 1:64\n",
        notes: b"RulmW<111uE",
    },
    Row {
        grows: false,
        refused: &[],
        without_memory: 2,
        exceptions: 0,
        script: b"open r profile 1\nalloc r a 100 @s\nresize r a 2000000 move\nalloc r b 1\n",
        out: b"r open\na 1:32\n",
        notes: b"RulmW<111uE",
    },
    Row {
        grows: false,
        refused: &[],
        without_memory: 1,
        exceptions: 0,
        script: b"open r best 1\ndict d list r 4\ninsert d x\nalloc r b 1\n",
        out: b"r open\nd open\n",
        notes: b"Ru+4x mWuE",
    },
    Row {
        grows: false,
        refused: &[],
        without_memory: 1,
        exceptions: 0,
        script: b"open r best 1\ndict d list r 4\nmethod d set\nalloc r b 1\n",
        out: b"r open\nd open\n",
        notes: b"RumWuE",
    },
    // In version 2 no exception is asked for then, and the lend behind one isn't made again either.
    Row {
        grows: false,
        refused: &[],
        without_memory: 2,
        exceptions: 1,
        script: b"vc 2\nopen r best 1\nalloc r a 4000\nalloc r b 4000\nalloc r c 1\n",
        out: b"2 r open\n3 a 1:32\n",
        notes: b"RalmW<111uE",
    },
    Row {
        grows: false,
        refused: &[2],
        without_memory: 3,
        exceptions: 1,
        script: b"vc 2\nopen r best 1\nalloc r a 4000\nalloc r b 4000\nalloc r c 1\n",
        out: b"2 r open\n3 a 1:32\n",
        notes: b"RalLymW<111uE",
    },
    Row {
        grows: false,
        refused: &[2],
        without_memory: 3,
        exceptions: 1,
        script: b"vc 2\nopen r best 1\nalloc r a 4000\nresize r a 5000 move\nalloc r c 1\n",
        out: b"2 r open\n3 a 1:32\n",
        notes: b"RalLymW<111uE",
    },
    Row {
        grows: false,
        refused: &[2],
        without_memory: 3,
        exceptions: 1,
        script: b"vc 2\nopen r best 1\nalloc r a 4000\ndict d set r 4\nalloc r c 1\n",
        out: b"2 r open\n3 a 1:32\n",
        notes: b"RalLymW<111uE",
    },
    Row {
        grows: false,
        refused: &[2],
        without_memory: 3,
        exceptions: 1,
        script: b"vc 2\nopen r best 1\nalloc r a 4000\ndict d list r 4\ninsert d x\nalloc r c 1\n",
        out: b"2 r open\n3 a 1:32\n4 d open\n",
        notes: b"Ral+4x LymW<111uE",
    },
    // An extension that finds none, and the segment goes back with the size that it had.
    Row {
        grows: true,
        refused: &[],
        without_memory: 2,
        exceptions: 0,
        script: b"open r best 1\nalloc r a 4000\nalloc r b 4000\nalloc r c 1\n",
        out: b"r open\na 1:32\n",
        notes: b"RulmW<111uE",
    },
    Row {
        grows: true,
        refused: &[],
        without_memory: 2,
        exceptions: 0,
        script: b"open r pool 1\nalloc r a 4000\nalloc r b 4000\nalloc r c 1\n",
        out: b"r open\na 1:32\n",
        notes: b"RulmW<111uE",
    },
    Row {
        grows: true,
        refused: &[],
        without_memory: 2,
        exceptions: 0,
        script: b"open r last 1\nalloc r a 4000\nalloc r b 4000\nalloc r c 1\n",
        out: b"r open\na 1:32\n",
        notes: b"RulmW<111uE",
    },
    Row {
        grows: true,
        refused: &[2],
        without_memory: 3,
        exceptions: 1,
        script: b"vc 2\nopen r best 1\nalloc r a 4000\nalloc r b 4000\nalloc r c 1\n",
        out: b"2 r open\n3 a 1:32\n",
        notes: b"RalXymW<111uE",
    },
];

// In version 2 an exception is asked for behind a refusal, and where one is made there is one lend more.
const EXCEPTIONS: &[Row] = &[
    Row {
        grows: false,
        refused: &[2, 4, 6, 8, 9],
        without_memory: 0,
        exceptions: 3,
        script: b"vc 2\nopen r best 1\nalloc r a 4000\nalloc r b 4000\nalign r c 4000 64\nresize r a 5000 move\nalloc r d 4000\nalign r e 4000 64\nresize r a 9000 move\nclose r\n",
        out: b"2 r open\n3 a 1:32\n4 b 2:32\n5 c 3:64\n6 a 4:32\n7 d 1:32\n8 refused: no segment\n9 refused: no segment\n10 r closed 4\n",
        notes: b"RalLylLylLylLnLn<111<121<131<142uWR",
    },
    Row {
        grows: false,
        refused: &[2, 4],
        without_memory: 0,
        exceptions: 1,
        script: b"vc 2\nopen r pool 1\nalloc r a 4000\nalloc r b 4000\nalloc r c 4000\n",
        out: b"2 r open\n3 a 1:32\n4 b 2:32\n5 refused: no segment\n",
        notes: b"RalLylLnWR<111<121u",
    },
    Row {
        grows: false,
        refused: &[2, 4, 6],
        without_memory: 0,
        exceptions: 2,
        script: b"vc 2\nopen r last 1\nalloc r a 4000\nalloc r b 4000\nresize r b 5000 move\nresize r b 9000 move\n",
        out: b"2 r open\n3 a 1:32\n4 b 2:32\n5 b 3:32\n6 refused: no segment\n",
        notes: b"RalLylLylLnWR<111<121<132u",
    },
    Row {
        grows: false,
        refused: &[2, 4, 6],
        without_memory: 0,
        exceptions: 2,
        script: b"vc 2\nopen r debug 1\nalloc r a 3900\nalloc r b 3900\nresize r b 5000 move\nresize r b 9000 move\n",
        out: b"2 r open\n3 a 1:64\n4 b 2:64\n5 b 3:64\n6 refused: no segment\n",
        notes: b"RalLylLylLnWR<111<121<132u",
    },
    Row {
        grows: false,
        refused: &[2, 4, 6, 8],
        without_memory: 0,
        exceptions: 3,
        script: b"vc 2\nopen r profile 1\nalloc r a 4000\nalign r b 4000 64\nalloc r c 4000\nresize r a 5000 move\nalloc r d 4000\nalloc r e 4000\n",
        out: b"2 r open\n3 a 1:32\n4 b 2:64\n5 c 3:32\n6 a 4:32\n7 d 1:32\n8 refused: no segment\n",
        notes: b"RalLylLylLylLnWR<111<121<131<142u",
    },
    // For a table, one of a changed method, and objects, for which no gap is left.
    Row {
        grows: false,
        refused: &[2, 4, 6, 8, 10],
        without_memory: 0,
        exceptions: 5,
        script: b"vc 2\nopen r best 1\nalloc r a 4000\ndict d set r 4\nalloc r b 3872\ninsert d x\nalloc r c 4000\ndict l list r 4\nappend l y\n",
        out: b"2 r open\n3 a 1:32\n4 d open\n5 b 2:192\n6 new x\n7 c 4:32\n8 l open\n9 new y\n",
        notes: b"RalLyl+4x LylLyl+4y WR-4x -4y <111<121<131<141u",
    },
    // Refused again, it isn't asked for a third time.
    Row {
        grows: false,
        refused: &[2, 3, 4, 5, 6, 7],
        without_memory: 0,
        exceptions: 9,
        script: b"vc 2\nopen r best 1\nalloc r a 4000\nalloc r b 4000\nalign r b 4000 64\nresize r a 5000 move\nalloc r b 4000\n",
        out: b"2 r open\n3 a 1:32\n4 refused: no segment\n5 refused: no segment\n6 refused: no segment\n7 b 2:32\n",
        notes: b"RalLyLLyLLyLlWR<111<121u",
    },
    Row {
        grows: false,
        refused: &[2, 3, 4, 5, 6, 7, 8, 9, 10, 11],
        without_memory: 0,
        exceptions: 9,
        script: b"vc 2\nopen r best 1\nalloc r a 4000\ndict d list r 4\ninsert d x\nappend d x\nattach d x\nmethod d set\ndict e set r 4\n",
        out: b"2 r open\n3 a 1:32\n4 d open\n5 refused: no segment for object\n6 refused: no segment for object\n7 refused: no segment for object\n8 refused: no segment for table\n9 refused: no segment for table\n",
        notes: b"Ral+4x LyL+4x LyLLyLLyLLyLWR<111u",
    },
    // Where no region is opened, nothing is asked of a discipline, and it is armed as often as it is opened.
    Row {
        grows: false,
        refused: &[],
        without_memory: 0,
        exceptions: 0,
        script: b"vc 2\nalloc r a 1\nopen r best 5\n",
        out: b"2 refused: no region\n3 refused: no such discipline\n",
        notes: b"RWR",
    },
    Row {
        grows: false,
        refused: &[],
        without_memory: 0,
        exceptions: 0,
        script: b"vc 2\nopen r best 1\nopen r best 1\nopen s best 1\nclose r\nopen s best 1\n",
        out: b"2 r open\n3 refused: region exists\n4 refused: discipline in use\n5 r closed 0\n6 s open\n",
        notes: b"RauaWRu",
    },
];

// A discipline that grows lends one segment, makes it longer, and takes it back once, with its last size. What is refused
// leaves all, and is asked for again by the next command alone.
const GROWTH: &[Row] = &[
    Row {
        grows: true,
        refused: &[2, 3],
        without_memory: 0,
        exceptions: 0,
        script: b"open r best 1\nalloc r a 4000\nwrite r a 0 hello\nalloc r b 4000\nresize r a 5000 move\nsize r a\nalloc r c 4000\nresize r a 5000 move\nread r a 0 5\nsegments r\nclose r\n",
        out: b"r open\na 1:32\na written 5\nrefused: no segment\nrefused: no segment\na 4000\nc 1:4064\na 1:8096\na 68656c6c6f\nsegments 1 1:16384\nr closed 1\n",
        notes: b"RulXXxx<114uWR",
    },
    Row {
        grows: true,
        refused: &[2],
        without_memory: 0,
        exceptions: 0,
        script: b"open r pool 1\nalloc r a 4000\nalloc r b 4000\nalloc r c 4000\nsegments r\n",
        out: b"r open\na 1:32\nrefused: no segment\nc 1:4032\nsegments 1 1:8192\n",
        notes: b"RulXxWR<112u",
    },
    Row {
        grows: true,
        refused: &[2, 3],
        without_memory: 0,
        exceptions: 0,
        script: b"open r last 1\nalloc r a 4000\nwrite r a 0 hello\nalloc r b 4000\nresize r a 5000 move\nsize r a\nalloc r c 4000\nresize r c 5000 move\nread r a 0 5\nsegments r\n",
        out: b"r open\na 1:32\na written 5\nrefused: no segment\nrefused: no segment\na 4000\nc 1:4064\nc 1:8096\na 68656c6c6f\nsegments 1 1:16384\n",
        notes: b"RulXXxxWR<114u",
    },
    // A table and an object.
    Row {
        grows: true,
        refused: &[1, 3],
        without_memory: 0,
        exceptions: 0,
        script: b"open r best 1\ndict d set r 4\ndict d set r 4\nalloc r a 3870\ninsert d x\ninsert d x\ncount d\n",
        out: b"r open\nrefused: no segment for table\nd open\na 1:192\nrefused: no segment for object\nnew x\n1\n",
        notes: b"RuLl+4x X+4x xWR-4x <112u",
    },
    // A region that gave its segment back is lent a new one under number 1.
    Row {
        grows: true,
        refused: &[],
        without_memory: 0,
        exceptions: 0,
        script: b"open r best 1\nalloc r a 4000\nalloc r b 4000\nfree r a\nfree r b\ncompact r\nalloc r c 1\nsegments r\n",
        out: b"r open\na 1:32\nb 1:4064\na freed\nb freed\nr compacted 1\nc 1:32\nsegments 1 1:4096\n",
        notes: b"Rulx<112lWR<111u",
    },
    // Too many bytes are told before the discipline is asked.
    Row {
        grows: true,
        refused: &[],
        without_memory: 0,
        exceptions: 0,
        script: b"open r best 1\nalloc r a 16777216\nalloc r b 16777216\nalloc r c 16769000\nalloc r d 4000\n",
        out: b"r open\na 1:32\nrefused: too many segments\nc 1:16777280\nd 1:33546304\n",
        notes: b"RulxWR<112u",
    },
    // Behind an exception it is asked for once more, and not a third time.
    Row {
        grows: true,
        refused: &[2, 4, 5],
        without_memory: 0,
        exceptions: 2,
        script: b"vc 2\nopen r best 1\nalloc r a 4000\nalloc r b 4000\nalloc r c 4000\nalloc r d 4000\n",
        out: b"2 r open\n3 a 1:32\n4 b 1:4064\n5 refused: no segment\n6 d 1:8096\n",
        notes: b"RalXyxXyXxWR<113u",
    },
    Row {
        grows: true,
        refused: &[2, 4, 5],
        without_memory: 0,
        exceptions: 2,
        script: b"vc 2\nopen r pool 1\nalloc r a 4000\nalloc r b 4000\nalloc r c 4000\nalloc r d 4000\n",
        out: b"2 r open\n3 a 1:32\n4 b 1:4032\n5 refused: no segment\n6 d 1:8032\n",
        notes: b"RalXyxXyXxWR<113u",
    },
    Row {
        grows: true,
        refused: &[2, 4, 5],
        without_memory: 0,
        exceptions: 2,
        script: b"vc 2\nopen r last 1\nalloc r a 4000\nalloc r b 4000\nalloc r c 4000\nalloc r d 4000\n",
        out: b"2 r open\n3 a 1:32\n4 b 1:4064\n5 refused: no segment\n6 d 1:8096\n",
        notes: b"RalXyxXyXxWR<113u",
    },
    Row {
        grows: true,
        refused: &[2, 3],
        without_memory: 0,
        exceptions: 0,
        script: b"vc 2\nopen r best 1\nalloc r a 4000\nalloc r b 4000\nresize r a 5000 move\nalloc r c 4000\n",
        out: b"2 r open\n3 a 1:32\n4 refused: no segment\n5 refused: no segment\n6 c 1:4064\n",
        notes: b"RalXnXnxWR<112u",
    },
    Row {
        grows: true,
        refused: &[1, 2, 4, 6, 7],
        without_memory: 0,
        exceptions: 9,
        script: b"vc 2\nopen r best 1\ndict d set r 4\ndict d set r 4\nalloc r a 3870\ninsert d x\ninsert d y\n",
        out: b"2 r open\n3 refused: no segment for table\n4 d open\n5 a 1:192\n6 new x\n7 new y\n",
        notes: b"RaLyLl+4x Xyx+4y WR-4x -4y <112u",
    },
];

// Segments are given back in ascending order of number, and regions are closed in order of opening.
const ORDER: &[Row] = &[
    Row {
        grows: false,
        refused: &[8],
        without_memory: 0,
        exceptions: 0,
        script: b"open r best 1\nopen s best 2\nalloc r a 4000\nalloc r b 4000\nalloc r c 4000\nalloc r d 4000\nalloc s x 4000\nalloc s y 4000\nalloc s z 4000\nfree r c\nfree r a\ncompact r\nalloc r e 4000\nfree s y\nclose s\nopen s best 2\nalloc s x 4000\nalloc s y 4000\nalloc s z 4000\nalloc s w 4000\nalloc s v 4000\nfree r b\n",
        out: b"r open\ns open\na 1:32\nb 2:32\nc 3:32\nd 4:32\nx 1:32\ny 2:32\nz 3:32\nc freed\na freed\nr compacted 2\ne 1:32\ny freed\ns closed 3\ns open\nx 1:32\ny 2:32\nz 3:32\nw 4:32\nrefused: no segment\nb freed\n",
        notes: b"Ruulllllll<111<131l<211<221<231uullllLWR<111<121<141u<211<221<231<241u",
    },
    Row {
        grows: false,
        refused: &[],
        without_memory: 0,
        exceptions: 0,
        script: b"open p pool 1\nopen l last 2\nopen d debug 3\nopen f profile 4\nalloc p a 4000\nalloc p b 4000\nalloc p c 4000\nfree p b\nalloc l a 4000\nalloc l b 4000\nresize l b 5000 move\nalloc d a 3900\nalloc d b 3900\nalloc d c 3900\nfree d b\nalloc f a 4000\nalloc f b 4000\nalloc f c 4000\nfree f b\n",
        out: b"p open\nl open\nd open\nf open\na 1:32\nb 2:32\nc 3:32\nb freed\na 1:32\nb 2:32\nb 3:32\na 1:64\nb 2:64\nc 3:64\nb freed\na 1:32\nb 2:32\nc 3:32\nb freed\n",
        notes: b"RuuuullllllllllllWR<111<121<131u<211<221<232u<311<321<331u<411<421<431u",
    },
    Row {
        grows: false,
        refused: &[],
        without_memory: 0,
        exceptions: 0,
        script: b"open r best 1\nalloc r a1 4000\nalloc r a2 4000\nalloc r a3 4000\nalloc r a4 4000\nalloc r a5 4000\nalloc r a6 4000\nfree r a5\nfree r a2\nfree r a6\nfree r a3\ncompact r\nclose r\n",
        out: b"r open\na1 1:32\na2 2:32\na3 3:32\na4 4:32\na5 5:32\na6 6:32\na5 freed\na2 freed\na6 freed\na3 freed\nr compacted 4\nr closed 2\n",
        notes: b"Rullllll<121<131<151<161<111<141uWR",
    },
    Row {
        grows: false,
        refused: &[],
        without_memory: 0,
        exceptions: 0,
        script: b"open r pool 1\nalloc r a1 4000\nalloc r a2 4000\nalloc r a3 4000\nalloc r a4 4000\nalloc r a5 4000\nalloc r a6 4000\nfree r a5\nfree r a2\nfree r a6\nfree r a3\ncompact r\nclose r\n",
        out: b"r open\na1 1:32\na2 2:32\na3 3:32\na4 4:32\na5 5:32\na6 6:32\na5 freed\na2 freed\na6 freed\na3 freed\nr compacted 4\nr closed 2\n",
        notes: b"Rullllll<121<131<151<161<111<141uWR",
    },
    Row {
        grows: false,
        refused: &[],
        without_memory: 0,
        exceptions: 0,
        script: b"open r last 1\nalloc r a1 4000\nalloc r a2 4000\nalloc r a3 4000\nalloc r a4 4000\nalloc r a5 4000\nalloc r a6 4000\nfree r a6\nfree r a5\nfree r a4\nfree r a3\ncompact r\nclose r\n",
        out: b"r open\na1 1:32\na2 2:32\na3 3:32\na4 4:32\na5 5:32\na6 6:32\na6 freed\na5 freed\na4 freed\na3 freed\nr compacted 4\nr closed 2\n",
        notes: b"Rullllll<131<141<151<161<111<121uWR",
    },
    Row {
        grows: false,
        refused: &[],
        without_memory: 0,
        exceptions: 0,
        script: b"open r debug 1\nalloc r a1 3900\nalloc r a2 3900\nalloc r a3 3900\nalloc r a4 3900\nalloc r a5 3900\nalloc r a6 3900\nfree r a5\nfree r a2\nfree r a6\nfree r a3\ncompact r\nclose r\n",
        out: b"r open\na1 1:64\na2 2:64\na3 3:64\na4 4:64\na5 5:64\na6 6:64\na5 freed\na2 freed\na6 freed\na3 freed\nr compacted 4\nr closed 2\n",
        notes: b"Rullllll<121<131<151<161<111<141uWR",
    },
    Row {
        grows: false,
        refused: &[],
        without_memory: 0,
        exceptions: 0,
        script: b"open r profile 1\nalloc r a1 4000\nalloc r a2 4000\nalloc r a3 4000\nalloc r a4 4000\nalloc r a5 4000\nalloc r a6 4000\nfree r a5\nfree r a2\nfree r a6\nfree r a3\ncompact r\nclose r\n",
        out: b"r open\na1 1:32\na2 2:32\na3 3:32\na4 4:32\na5 5:32\na6 6:32\na5 freed\na2 freed\na6 freed\na3 freed\nr compacted 4\nr closed 2\n",
        notes: b"Rullllll<121<131<151<161<111<141uWR",
    },
];

fn are_asked(rt: &impl Abort, alloc: Global, rows: &[Row]) -> Result<(), AllocError> {
    for row in rows {
        let given = Given {
            grows: row.grows,
            answers: Answers {
                refused: row.refused,
                without_memory: row.without_memory,
                exceptions: row.exceptions,
            },
            ..ample(row.script)
        };
        let (status, err) = if row.without_memory == 0 {
            (Status::Ok, b"".as_slice())
        } else {
            (Status::Memory, b"dtrun: out of memory\n".as_slice())
        };
        is_run(rt, alloc, given, status, [row.out, err, row.notes])?;
    }
    Ok(())
}

#[test]
fn asks(rt: HostRuntime) -> Result<(), Fail> {
    for rows in [ONCE, WITHOUT_MEMORY, EXCEPTIONS, GROWTH, ORDER] {
        are_asked(&rt, rt.alloc(), rows)?;
    }
    Ok(())
}
