//! Proves how long a file that is read may be. The law is the `ensures` of a function that does nothing.
ghost use Rattle.std.specs.Prelude.{◌≡◌};
ghost use Rattle.rw_io.specs.declared.whole_file.TheConstants.{FILE_MAX};

/// How many bytes of a file are read at most.
pub fn limits_of_files()
    ensures bytes { FILE_MAX ≡ 16777216 }
{}
