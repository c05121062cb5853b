// X-10 patterns, for C.
ghost use Rattle.std.specs.Prelude.{◌≡◌, [], ◌∷◌, length};
ghost use Rattle.answer.specs.Answer.{on_accepted, in_room, out_after};
ghost use Rattle.answer.specs.Packed.{packed, word};
ghost use Rattle.x10.specs.Answers.{fields};
ghost use Rattle.x10.specs.Pattern.{read, write, unit as Unit', extended, write_function_code};

use answer::pack_written;

pub fn x10_read(places: &[u8]) -> u64
    ensures { result ≡ packed (on_accepted fields (read places.now)) }
{
    x10::read_packed(places)
}

pub fn x10_write_unit(house: u8, unit: u8, out: &mut [u8]) -> u64
    ensures value { result ≡ packed (on_accepted (λ count. word count ∷ []) (on_accepted length (in_room (length out.old) (write (Unit' house unit))))) }
    ensures out_after { out.new ≡ out_after (in_room (length out.old) (write (Unit' house unit))) out.old }
{
    pack_written(x10::write_unit(house, unit, out))
}

pub fn x10_write_function(house: u8, code: u8, out: &mut [u8]) -> u64
    ensures value { result ≡ packed (on_accepted (λ count. word count ∷ []) (on_accepted length (in_room (length out.old) (write_function_code house code)))) }
    ensures out_after { out.new ≡ out_after (in_room (length out.old) (write_function_code house code)) out.old }
{
    pack_written(x10::write_function_code(house, code, out))
}

pub fn x10_write_extended(house: u8, unit: u8, data: u8, command: u8, out: &mut [u8]) -> u64
    ensures value { result ≡ packed (on_accepted (λ count. word count ∷ []) (on_accepted length (in_room (length out.old) (write (extended house unit «data» command))))) }
    ensures out_after { out.new ≡ out_after (in_room (length out.old) (write (extended house unit «data» command))) out.old }
{
    pack_written(x10::write_extended(house, unit, data, command, out))
}
