//! A small folder whose analysis is computed.

ghost use Rattle.std.specs.Prelude.{◌≡◌};
ghost use Rattle.reading_fits.specs.FolderAnalysis.{analysis_of, IsFolder};
ghost use Rattle.reading_fits.specs.Examples.{of_abs, two_modules, at_argument};

/// A module that requires another is reported for what that one returns.
pub fn a_folder_of_two_modules()
    ensures folder { IsFolder of_abs two_modules }
    ensures reported { (analysis_of of_abs two_modules).reports ≡ at_argument }
{}
