//! The files of a test: where they are, and the words of a command line that stand for them.
use std::alloc::{AllocError, Global};
use std::rt::{Env, Files};
use std::test::Fail;
use std::{env, fs};

/// Paths in a folder for files that don't last, of this test alone.
pub fn path_of<R: Env + AllocGlobal>(rt: &R, name: &str) -> Result<String, Fail> {
    let folder = env::temp_dir(rt)?;
    let folder = folder.as_path().display();
    Ok(format!(in rt.alloc(); "{folder}/cubesat_{name}")?)
}

/// The files of a test: the formula, the proof, and one in a folder that isn't there.
pub struct Paths {
    pub formula: String,
    pub proof: String,
    pub missing: String,
}

// written out, so that proofs of its owners stay short (docs/PROVING.md)
impl Drop for Paths {
    fn drop(self) {
        let Paths {
            formula: _,
            proof: _,
            missing: _,
        } = self;
    }
}

impl Paths {
    /// Those of the test of this name.
    pub fn of<R: Env + AllocGlobal>(rt: &R, name: &str) -> Result<Paths, Fail> {
        Ok(Paths {
            formula: path_of(rt, name)?,
            proof: format!(in rt.alloc(); "{}.lrat", path_of(rt, name)?)?,
            missing: path_of(rt, "no_such_folder/x")?,
        })
    }

    /// The path that a word of a row stands for, or the word.
    pub fn word<'a>(&'a self, word: &'a str) -> &'a str {
        match word {
            "FORMULA" => self.formula.as_str(),
            "PROOF" => self.proof.as_str(),
            "MISSING" => self.missing.as_str(),
            _ => word,
        }
    }

    /// The command line that the words of a row stand for.
    pub fn words<'a>(
        &'a self,
        alloc: Global,
        words: &[&'a str],
    ) -> Result<Vec<&'a str>, AllocError> {
        let mut line = Vec::new(alloc);
        for word in words {
            line.push(self.word(word))?;
        }
        Ok(line)
    }

    /// The same, by so many hands.
    pub fn words_by<'a>(
        &'a self,
        alloc: Global,
        words: &[&'a str],
        hands: &'a str,
    ) -> Result<Vec<&'a str>, AllocError> {
        let mut line = self.words(alloc, words)?;
        line.push("--hands")?;
        line.push(hands)?;
        Ok(line)
    }

    /// A text in which such words stand between bars.
    pub fn filled(&self, alloc: Global, text: &str) -> Result<String, AllocError> {
        let mut filled = String::new(alloc);
        for piece in text.split('|') {
            filled.push_str(self.word(piece))?;
        }
        Ok(filled)
    }
}

/// Puts texts into the formula's file and the proof's.
pub fn put_texts<R: Files>(
    rt: &R,
    paths: &Paths,
    formula: &[u8],
    proof: &[u8],
) -> Result<(), Fail> {
    fs::write(rt, paths.formula.as_str(), formula)?;
    fs::write(rt, paths.proof.as_str(), proof)?;
    Ok(())
}

/// The files of a test, and the path of the proof's part.
pub struct Parts {
    pub paths: Paths,
    pub part: String,
}

// written out, so that proofs of its owners stay short (docs/PROVING.md)
impl Drop for Parts {
    fn drop(self) {
        let Parts { paths: _, part: _ } = self;
    }
}

impl Parts {
    /// Those of the test of this name, with the formula's text and an old proof.
    pub fn of<R: Env + Files + AllocGlobal>(
        rt: &R,
        name: &str,
        formula: &str,
    ) -> Result<Parts, Fail> {
        let paths = Paths::of(rt, name)?;
        fs::write(rt, paths.formula.as_str(), formula)?;
        fs::write(rt, paths.proof.as_str(), "old")?;
        let part = format!(in rt.alloc(); "{}.part", paths.proof)?;
        Ok(Parts { paths, part })
    }

    /// Whether the proof's file has this text, and there is no part.
    pub fn has<R: Files + AllocGlobal>(&self, rt: &R, text: &str) -> bool {
        match fs::read(rt, self.paths.proof.as_str()) {
            Ok(proof) => {
                proof.as_slice() == text.as_bytes()
                    && rt.symlink_metadata(self.part.as_str()).is_err()
            }
            Err(_) => false,
        }
    }
}
