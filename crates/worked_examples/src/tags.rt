//! HMAC with SHA-256, as published vectors have it.

ghost use Rattle.worked_examples.specs.Tags.{HiThere, WhatDoYaWant};

/// RFC 4231, test case 1.
pub fn hmac_of_hi_there()
    ensures { HiThere }
{}

/// RFC 4231, test case 2, with a key shorter than a block.
pub fn hmac_of_what_do_ya_want()
    ensures { WhatDoYaWant }
{}
