use dsm_asm::assembler::assemble;
use dsm_asm::fault::{AsmErr, AsmFault};
use dsm_grammar::fault::{AsmKind, Bound};
use dsm_isa::instr::Instr;
use std::alloc::Global;
use std::test::Fail;

#[test]
fn assembles_programs(rt: HostRuntime) -> Result<(), Fail> {
    let text = ".words 4\n.init 3 7\n.init 1 9\nloop: jmp end\njmp loop ; back\nend:\n";
    let Ok(program) = assemble(rt.alloc(), text.as_bytes()) else {
        return Err("refused".into());
    };
    assert_eq!(rt; program.shape().words, 4);
    assert_eq!(rt; program.init(), [(1, 9), (3, 7)].as_slice());
    assert_eq!(rt; program.code().len(), 2);
    assert_eq!(rt; program.code().get(0), Some(Instr::Jmp { to: 2 }));
    assert_eq!(rt; program.code().get(1), Some(Instr::Jmp { to: 0 }));
    Ok(())
}

// The first fault of a text of fewer than 1,000 bytes.
fn fault(alloc: Global, text: &str) -> Option<AsmFault> {
    if text.len() > 1000 {
        return None;
    }
    match assemble(alloc, text.as_bytes()) {
        Err(AsmErr::Refused(fault)) => Some(fault),
        _ => None,
    }
}

#[test]
fn names_first_faults(rt: HostRuntime) -> Result<(), Fail> {
    let rows = [
        ("jmp x\nfoo", 1, AsmKind::NoLabel),
        ("jmp x\nx: li r1", 2, AsmKind::BadOperand),
        ("a: halt\na: foo", 2, AsmKind::DoubleLabel),
        (".locks 1\nlock 1", 2, AsmKind::Limit(Bound::Lock)),
        ("", 1, AsmKind::NoCode),
    ];
    for (text, line, kind) in rows {
        assert_eq!(rt; fault(rt.alloc(), text), Some(AsmFault { line, kind }));
    }
    Ok(())
}
