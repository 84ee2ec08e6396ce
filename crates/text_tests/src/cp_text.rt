// CP text.
use cp_lines::{CpFault, CpReadFault, print_cp, read_cp};
use fold_base::MOST_BYTES;
use std::alloc::Global;
use std::test::Fail;

fn fault_of(alloc: Global, text: &[u8]) -> Option<CpFault> {
    if text.len() > MOST_BYTES as usize {
        return None;
    }
    match read_cp(alloc, text) {
        Err(CpReadFault::Text(fault)) => Some(fault),
        _ => None,
    }
}

#[test]
fn names_first_faults(rt: HostRuntime) -> Result<(), Fail> {
    let alloc = rt.alloc();
    for (text, shown) in [
        ("2 0 0 1\n", "cp fault at line 1 column 8: byte"),
        ("2 0 0 1", "cp fault at line 1 column 8: ended"),
        ("1 0 0 1 1\n5 0 0 1 1", "cp fault at line 2 column 1: byte"),
        ("1 0 0 1 01", "cp fault at line 1 column 10: byte"),
        ("1 0 0 1. 0", "cp fault at line 1 column 9: byte"),
        ("\r\n1 0 0 1 -", "cp fault at line 2 column 10: ended"),
        ("1 0 0 1 1\r", "cp fault at line 1 column 11: ended"),
        ("1 0 0 1 1\r\r\n", "cp fault at line 1 column 11: byte"),
        ("1 0 0\r1 1", "cp fault at line 1 column 6: byte"),
        ("1 0 0 1 1 1", "cp fault at line 1 column 11: byte"),
    ] {
        let fault = fault_of(alloc, text.as_bytes()).ok_or(text)?;
        assert_eq!(rt; format!(in alloc; "{fault}")?.as_str(), shown, "{text:?}");
    }
    Ok(())
}

#[test]
fn prints_what_it_reads(rt: HostRuntime) -> Result<(), Fail> {
    let alloc = rt.alloc();
    for (text, printed) in [
        ("", ""),
        ("1  0 0\t1 0\r\n\r\n3 0 0 1 1", "1 0 0 1 0\n3 0 0 1 1\n"),
        ("\t0 -1 -0 10 4 \n \n", "0 -1 -0 10 4\n"),
        ("2 -0.50 1.5e+02 0E-7 12.0", "2 -0.50 1.5e+02 0E-7 12.0\n"),
    ] {
        assert!(rt; text.len() <= MOST_BYTES as usize);
        let lines = read_cp(alloc, text.as_bytes()).ok().ok_or(text)?;
        assert_eq!(rt; print_cp(alloc, &lines)?.as_str(), printed, "{text:?}");
    }
    Ok(())
}
