//! Which numbers of files are those of standard streams.
ghost use Rattle.std.specs.Prelude.{◌≡◌, pos};
ghost use Rattle.std.specs.Fd.{file_raw_fd};
ghost use Rattle.std.specs.declared.fs.File.{File};
ghost use Rattle.real_outside.specs.Numbers.{IsNoStream};

/// Number 2 is that of standard errors, and 3 is that of no stream.
#[tactic(auto)]
pub fn numbers_of_files()
    ensures two_is_a_stream { (file : File) → file_raw_fd file ≡ pos 2 → IsNoStream file → ⊥ }
    ensures three_is_none { (file : File) → file_raw_fd file ≡ pos 3 → IsNoStream file }
{}
