ghost use Rattle.std.specs.Prelude.{◌≡◌};
ghost use Rattle.crease_input.specs.Roots.{root_of, root_of_text, root_of_value};

use fold_frames::Effective;
use fold_keys::Value;

/// The root over which the exact texts of a frame are, 2 or 3. There is none where the frame has no exact texts.
pub fn frame_root(frame: &Effective) -> Option<u32>
    ensures { result ≡ root_of frame.now.entries }
{
    let value = frame.get(b"fx:vertices_coords")?;
    Some(root_of_value(value))
}

fn root_of_value(value: &Value) -> u32
    ensures { result ≡ root_of_value value.now }
{
    match value {
        Value::Exact(points) => match points.as_slice() {
            [(x, _), ..] => root_of_text(x.bytes()),
            [] => 2,
        },
        _ => 2,
    }
}

fn root_of_text(text: &[u8]) -> u32
    ensures { result ≡ root_of_text text.now }
{
    let commas = text.iter().filter(|byte| **byte == b',').count();
    if commas == 3 { 3 } else { 2 }
}
