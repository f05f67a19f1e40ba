//! Sealed files that were cut or lengthened.

use super::sealed_files::{SALT, Said, counted, made, of_range};
use super::sealed_parts::{range, unnamed};
use sealed_file::Damage::{CutHeader, NotSealed, WrongEnd};
use std::test::Fail;

// The lengths of texts, and of the bytes by which their files are lengthened.
static TEXTS: [usize; 6] = [0, 1, 65535, 65536, 65537, 131072];

static MORE: [usize; 4] = [1, 16, 17, 65552];

// Whether a length is within 20 bytes of the end of a file, of its header or of a chunk.
fn is_near_edge(len: usize, file: usize) -> bool {
    [0, 32, 65584, 131136, file]
        .iter()
        .any(|edge| len.abs_diff(*edge) <= 20)
}

// What is wrong with a file that was cut to this length.
fn damage_of(len: usize) -> Said {
    Said::Damaged(match len {
        0..12 => NotSealed,
        12..32 => CutHeader,
        _ => WrongEnd(len.saturating_sub(33) as u64 / 65552),
    })
}

// What is said of a slice and of a `File`, if that is the same, where a read of no bytes would do.
fn said(rt: &HostRuntime, file: &[u8]) -> Result<Option<Said>, Fail> {
    let slice = of_range(range(file, 0, &mut []));
    let on_disk = of_range(range(unnamed(rt, "cut.tmp", file)?, 0, &mut []));
    Ok(if slice == on_disk { Some(slice) } else { None })
}

#[test]
fn cut_files_are_refused(rt: HostRuntime) -> Result<(), Fail> {
    let mut tried = 0u32;
    for size in &TEXTS {
        let text = counted(rt.alloc(), *size)?;
        let mut file = Vec::new(rt.alloc());
        made(&SALT, text.as_slice(), &mut file, 0, 0);
        let whole = file.len();
        for len in (0..whole).filter(|len| is_near_edge(*len, whole)) {
            let cut = file.get(..len).unwrap_or(&[]);
            assert!(rt; said(&rt, cut)? == Some(damage_of(len)), "{size} {len}");
            tried = tried.saturating_add(1);
        }
        for more in &MORE {
            file.resize(whole.saturating_add(*more), 0)?;
            let said = said(&rt, file.as_slice())?;
            assert!(rt; matches!(said, Some(Said::Damaged(_))), "{size} {more}");
            tried = tried.saturating_add(1);
        }
    }
    assert!(rt; tried == 471, "{tried}");
    Ok(())
}
