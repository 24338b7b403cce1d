// Images for C: what is made, read back and told by a number. The functions under C names are those of crate abi.
#![tactic(auto)]

ghost use Rattle.std.specs.Prelude.{◌≡◌};
ghost use Rattle.abi_images.specs.Told.{make_number, make_output, read_number, read_output};

use rules::{NotMade, NotRead};

pub fn make(version: u64, payload: &[u8], output: &mut [u8]) -> i32
    ensures value { result ≡ make_number version payload.now output.old }
    ensures output_after { output.new ≡ make_output version payload.now output.old }
{
    match image_make::make(version, payload, output) {
        Ok(length) => length as i32,
        Err(NotMade::VersionZero) => -1,
        Err(NotMade::PayloadOver128Records) => -2,
        Err(NotMade::OutputTooShort) => -3,
    }
}

pub fn read(image: &[u8], output: &mut [u8]) -> i32
    ensures value { result ≡ read_number image.now output.old }
    ensures output_after { output.new ≡ read_output image.now output.old }
{
    match image_make::read_back(image, output) {
        Ok(length) => length as i32,
        Err(NotRead::NotGoodImage) => -1,
        Err(NotRead::OutputTooShort) => -2,
    }
}
