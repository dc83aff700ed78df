// Texts of faults that nothing prints.
use bb_lexer::{LexFault, LexKind};
use std::test::Fail;

/// What a fault of a file's lines shows: its kind, without its line.
#[test]
fn faults_of_lines(rt: HostRuntime) -> Result<(), Fail> {
    let rows: &[(LexKind, &str)] = &[
        (LexKind::NotUtf8, "the file isn't UTF-8"),
        (
            LexKind::DanglingJoin,
            "a join goes on behind the end of the file",
        ),
        (LexKind::CommentInJoin, "a comment stands inside a join"),
        (LexKind::Memory, "memory ran out"),
    ];
    for (kind, text) in rows {
        let fault = LexFault {
            line: 7,
            kind: *kind,
        };
        assert_eq!(rt; kind.to_string(rt.alloc())?.as_str(), *text);
        assert_eq!(rt; fault.to_string(rt.alloc())?.as_str(), *text);
    }
    Ok(())
}
