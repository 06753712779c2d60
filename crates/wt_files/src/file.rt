//! Files, read piece by piece.

ghost use Rattle.std.specs.Prelude.{IfSome};
ghost use Rattle.wt_files.specs.File.{IsFrontOf, IsWithin};

use std::alloc::Global;
use std::io::Read;

/// What came of an attempt to read a file.
#[derive(Drop)]
pub enum FileRead {
    Read(Vec<u8>),
    /// There is no such file.
    Absent,
    /// It can't be opened, or a read failed.
    Failed,
    NoMemory,
}

/// Reads what is left of a file, at most `most` bytes of it, piece by piece. Only a read that gives no byte is
/// its end, however short the pieces are.
pub fn read_most<F: Read>(alloc: Global, file: &mut F, most: usize) -> FileRead
    ensures within { IsWithin most result }
    ensures front { IfSome (F.remaining file.old) (λ all. IsFrontOf most all result) }
{
    let mut bytes = Vec::new(alloc);
    let mut piece = [0u8; 4096];
    'pieces: loop {
        let room = (most - bytes.len()).min(4096);
        if room == 0 {
            return FileRead::Read(bytes);
        }
        match file.read(&mut piece[..room]) {
            Ok(0) => return FileRead::Read(bytes),
            Ok(count) => {
                if bytes.extend_from_slice(&piece[..count]).is_err() {
                    return FileRead::NoMemory;
                }
            }
            Err(_) => return FileRead::Failed,
        }
    }
}
