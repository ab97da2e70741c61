//! The canonical text of a scene states it, for those who read the definitions alone.

ghost use Rattle.canonical_scenes.specs.Parsed.{CanonicalTextsParse};
ghost use Rattle.canonical_scenes.specs.Laws.{CanonicalTextsSay};

/// The canonical text of a scene whose numbers fit 64 bits is a document of TOML with a key for each number,
/// and a row for each disk.
pub fn canonical_texts_parse()
    ensures { CanonicalTextsParse }
{}

/// The canonical text of a valid scene says that scene.
pub fn canonical_texts_say()
    ensures { CanonicalTextsSay }
{}
