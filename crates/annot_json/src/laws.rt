//! Laws with nothing to run: what printing and reading come to.
ghost use Rattle.annot_json.specs.Laws.{PrintedIsRead, GivenMakesAgain};

/// The value that an annotation is printed as is read as that annotation, at each path.
pub fn printed_is_read()
    ensures { PrintedIsRead }
{}

/// The annotation that a bundle is printed as makes the bundle again, under a valid configuration that
/// the bundle fits, with the same key.
pub fn given_makes_again()
    ensures { GivenMakesAgain }
{}
