//! Tests texts of code that are read, written again, and refused.
ghost use Rattle.std.specs.Prelude.{◌≤◌, length};

use rpl_code::{CodeFault, read_code, write_code};
use std::alloc::Global;
use std::process::Abort;

// No block, one that is empty, and a function and a rule with each form of line.
const CODES: &[&str] = &[
    "CODE 1\n",
    "CODE 1\nRULE\nLOCALS -\nEND\n",
    r#"CODE 1
FUNCTION N N,S*12
LOCALS B,D
load 0
neg
END
RULE
LOCALS N,S,N*4096
num -7
bool true
slot Dam.Storage
store 4294967295
toelevation Dam
call Min
widen 4096
target -
target N*2,D
map 1
yield
put Dam.Outflow 0
END
"#,
];

// Texts that aren't read as code, and why.
const REFUSED: &[(&str, CodeFault)] = &[
    ("", CodeFault::Truncated),
    ("CODE 1\nRULE\nLOCALS -\nadd\n", CodeFault::Truncated),
    (
        "CODE 1\nRULE\nLOCALS -\nnum 01\nplus\nEND\n",
        CodeFault::BadLine(4),
    ),
    ("CODE 1\nRULE\nadd\nEND\n", CodeFault::BadLine(3)),
];

fn written_again(rt: &impl Abort, alloc: Global, text: &str) -> Vec<u8>
    requires { length text.now ≤ 16_777_216 }
{
    let code = read_code(alloc, text.as_bytes()).expect(rt, "a code");
    write_code(alloc, &code).expect(rt, "memory")
}

#[test]
fn a_text_is_read_and_written_again(rt: HostRuntime) {
    for text in CODES {
        assert!(rt; text.len() <= 16_777_216);
        assert_eq!(rt;
            written_again(&rt, rt.alloc(), *text).as_slice(),
            text.as_bytes()
        );
    }
}

#[test]
fn the_first_bad_line_is_named(rt: HostRuntime) {
    for (text, fault) in REFUSED {
        assert!(rt; text.len() <= 16_777_216);
        assert_eq!(rt; read_code(rt.alloc(), text.as_bytes()).err(), Some(*fault));
    }
}
