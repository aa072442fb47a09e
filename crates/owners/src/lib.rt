// No code: the store of pages that an image is to mount, whose each page is, and the moves that calls make.
#![tactic(auto)]
