//! Checkpoints whose texts and answers come from outside.

use crate::{State, read, write};
use std::alloc::Global;
use std::test::Fail;

// What the digest of the body below is, as `sha256sum` of the GNU coreutils gives it.
const DIGEST: &str = "a7bd2318184b6f94e9c1099d3dfccbb36e436f91ba5cc7aee076a56099504b35";

const REST: &str = "\nnext 3\nresidues 90 646\n";

// A problem of 172 bytes, which has 8 trees: the square of the first direct image of O(-1), on maps of degree 2 to the
// line.
const SOURCE: &str =
    "version = 1\nrank = 1\ndegree = 2\nweights = [1, 3]\nmoduli = [101, 1001]\nnumerator_bound = 100\ndenominator_bound = 100\n\n[[term]]\nclasses = [{ kind = \"r1\", k = 1, power = 2 }]\n";

// The worked text.
fn text(alloc: Global) -> Result<String, Fail> {
    let front = format!(in alloc; "locus-checkpoint 2\nproblem 172\n{SOURCE}{REST}")?;
    Ok(format!(in alloc; "{front}sha256 {DIGEST}\n")?)
}

// The next number and the residues of a state, as a checkpoint has them.
fn shown(alloc: Global, state: &State) -> Result<String, Fail> {
    let mut shown = format!(in alloc; "next {} residues", state.next())?;
    for residue in state.residues() {
        shown.push_str(format!(in alloc; " {residue}")?.as_str())?;
    }
    Ok(shown)
}

// The state of the worked text.
fn worked(alloc: Global) -> Result<State, Fail> {
    let text = text(alloc)?;
    Ok(
        read(alloc, text.as_bytes())
            .ok()
            .ok_or("the text is one of a state")?,
    )
}

#[test]
fn a_state_has_one_text_of_299_bytes(rt: HostRuntime) -> Result<(), Fail> {
    let alloc = rt.alloc();
    let state = worked(alloc)?;
    assert_eq!(rt; shown(alloc, &state)?.as_str(), "next 3 residues 90 646");
    assert_eq!(rt; state.source(), SOURCE.as_bytes());
    assert_eq!(rt; state.problem().shape.count(), 8);
    let written = write(alloc, &state).ok().ok_or("no memory")?;
    assert_eq!(rt; written.len(), 299);
    assert_eq!(rt; written.as_slice(), text(alloc)?.as_bytes());
    Ok(())
}
