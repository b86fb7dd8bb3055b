//! Lists of mappings as `gv_compare` reads them.
mod alike;
mod digests;
mod made;
mod spaces;
