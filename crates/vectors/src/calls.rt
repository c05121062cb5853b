// The calls and their names.

#[derive(Clone, Copy)]
pub(crate) enum Call {
    ReadPlaces,
    ReadFrame,
    ReadMessage,
    AtThermostat,
    AtHost,
    Step,
    Temperatures,
    Cost,
    Meter,
    Listing,
    WriteUnit,
    WriteFunction,
    WriteExtended,
    WriteFrame,
    WriteMessage,
    ToThermostat,
    ToHost,
    GroupToHost,
    TextToThermostat,
    TextToHost,
    Cut,
    Door,
    Mend,
}

// No name starts with another.
const NAMES: [(&[u8], Call); 23] = [
    (b"read places", Call::ReadPlaces),
    (b"read frame", Call::ReadFrame),
    (b"read message", Call::ReadMessage),
    (b"at thermostat", Call::AtThermostat),
    (b"at host", Call::AtHost),
    (b"step", Call::Step),
    (b"temperatures", Call::Temperatures),
    (b"cost", Call::Cost),
    (b"meter", Call::Meter),
    (b"listing", Call::Listing),
    (b"write unit", Call::WriteUnit),
    (b"write function", Call::WriteFunction),
    (b"write extended", Call::WriteExtended),
    (b"write frame", Call::WriteFrame),
    (b"write message", Call::WriteMessage),
    (b"to thermostat", Call::ToThermostat),
    (b"to host", Call::ToHost),
    (b"group to host", Call::GroupToHost),
    (b"text to thermostat", Call::TextToThermostat),
    (b"text to host", Call::TextToHost),
    (b"cut", Call::Cut),
    (b"door", Call::Door),
    (b"mend", Call::Mend),
];

// The call whose name a line starts with, and what stands behind the name.
pub(crate) fn named(line: &[u8]) -> Option<(Call, &[u8])> {
    NAMES
        .iter()
        .find_map(|&(name, call)| Some((call, line.strip_prefix(name)?)))
}
