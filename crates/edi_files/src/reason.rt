//! Why a path can't be read or written.
ghost use Rattle.std.specs.Prelude.{◌≡◌, ◌++◌, OnOk, codes};
ghost use Rattle.edi_files.specs.Reasons.{ended, reason_text};

use std::alloc::AllocError;

/// Why a path can't be read or written, where the system says.
#[derive(Clone, Copy)]
pub enum Reason {
    NoFile,
    NoFolder,
    IsFolder,
    NotPermitted,
    ReadOnly,
    NoSpace,
    NoQuota,
    TooLarge,
    /// It is the file to which standard output or standard error goes.
    IsStandard,
    /// It is one of the inputs.
    IsInput,
}

/// The words of a reason.
pub fn reason_text(reason: Reason) -> &'static [u8]
    ensures { result.now ≡ reason_text reason }
{
    match reason {
        Reason::NoFile => b"no such file",
        Reason::NoFolder => b"no such folder",
        Reason::IsFolder => b"is a folder",
        Reason::NotPermitted => b"not permitted",
        Reason::ReadOnly => b"read-only file system",
        Reason::NoSpace => b"no space left",
        Reason::NoQuota => b"no quota left",
        Reason::TooLarge => b"file too large",
        Reason::IsStandard => b"is standard output or standard error",
        Reason::IsInput => b"is one of the inputs",
    }
}

/// Adds the line of a reason, by the name of the path.
pub fn push_reason(lines: &mut Vec<u8>, name: &[u8], reason: Reason) -> Result<(), AllocError>
    ensures { OnOk result (lines.new.items
        ≡ lines.old.items ++ ended (codes "edicad: " ++ name.now ++ codes ": " ++ reason_text reason)) }
{
    lines.extend_from_slice(b"edicad: ")?;
    lines.extend_from_slice(name)?;
    lines.extend_from_slice(b": ")?;
    lines.extend_from_slice(reason_text(reason))?;
    lines.push(b'\n')?;
    Ok(())
}
