//! What the code tells the ports of steps is what the theory of frames says that they are told: laws, of which the program runs
//! nothing.
//!
//! `tv_telling` tells ports along ways, by the length from which on prefixes of an event's place become whole. `tv_framing`
//! says what ports are told by a test of places, and that this is what they gain. Here both are joined: the tellings are the
//! same but for what they say of faults in bound values, which matching doesn't see; and there is always such a length.
ghost use Rattle.tv_framing.specs.ways.Stated.{OneLengthTurnsWhole, PortsAreToldByWays, ValuesAreToldAlike, WaysAreToldAlike};

/// What is told of values, and along ways.
pub fn tellings()
    ensures values { ValuesAreToldAlike }
    ensures ways { WaysAreToldAlike }
    ensures ports { PortsAreToldByWays }
{}

/// From which length on prefixes become whole.
pub fn lengths()
    ensures { OneLengthTurnsWhole }
{}
