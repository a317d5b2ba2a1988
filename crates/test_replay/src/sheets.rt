// What the port answers to the question on a sheet: the plain numbers, the case of each kind, the said bits.
use crate::cases::put_case;
use answers::Refusal;
use sheet::{NetworkCode, Sheet};

// What the answer begins with where there is no whole record.
const REFUSED: u8 = 255;

// The sheet of the record that the bytes hold.
pub(crate) fn answer(bytes: &[u8], out: &mut [u8]) -> usize {
    match reading::parse(bytes) {
        Ok(parsed) => put_sheet(sheet::sheet_of(parsed.record), out),
        Err(why) => put_refused(why, out),
    }
}

// Puts why there is no whole record: the number in four bytes, and in eight what it carries.
fn put_refused(why: Refusal, out: &mut [u8]) -> usize {
    let at = buffer::put_byte(REFUSED, 0, out);
    let at = test_frames::put_four(why.number(), at, out);
    test_frames::put_eight(why.carried(), at, out)
}

// Puts a sheet in the order of its fields.
fn put_sheet(s: Sheet, out: &mut [u8]) -> usize {
    let at = put_dps(s, 0, out);
    let at = put_sides(s, at, out);
    let at = put_layout(s, at, out);
    let at = put_screen(s, at, out);
    let at = put_mode(s, at, out);
    let at = put_input(s, at, out);
    test_frames::put_four(s.said, at, out)
}

// Puts the codes and the three dp values.
fn put_dps(s: Sheet, at: usize, out: &mut [u8]) -> usize {
    let at = test_frames::put_two(s.mcc, at, out);
    let code = s.network_code;
    let at = put_network_code(code, at, out);
    let at = test_frames::put_two(s.smallest_screen_width_dp, at, out);
    let at = test_frames::put_two(s.screen_width_dp, at, out);
    test_frames::put_two(s.screen_height_dp, at, out)
}

// Puts the pixel sides and the version.
fn put_sides(s: Sheet, at: usize, out: &mut [u8]) -> usize {
    let at = test_frames::put_two(s.screen_width, at, out);
    let at = test_frames::put_two(s.screen_height, at, out);
    let at = test_frames::put_two(s.sdk_version, at, out);
    test_frames::put_two(s.minor_version, at, out)
}

// Puts a network code: 0 where it is silent, else 1, and its number.
fn put_network_code(code: NetworkCode, at: usize, out: &mut [u8]) -> usize {
    match code {
        NetworkCode::Silent => buffer::put(b"\0\0\0", at, out),
        NetworkCode::Code(n) => {
            let at = buffer::put_byte(1, at, out);
            test_frames::put_two(n, at, out)
        }
    }
}

// Puts the kinds from the gender to the long screen.
fn put_layout(s: Sheet, at: usize, out: &mut [u8]) -> usize {
    let at = put_case(s.grammatical_gender, at, out);
    let at = put_case(s.layout_dir, at, out);
    let at = put_case(s.screen_size, at, out);
    put_case(s.screen_long, at, out)
}

// Puts the kinds from the round screen to HDR.
fn put_screen(s: Sheet, at: usize, out: &mut [u8]) -> usize {
    let at = put_case(s.screen_round, at, out);
    let at = put_case(s.wide_color_gamut, at, out);
    put_case(s.hdr, at, out)
}

// Puts the kinds from the orientation to the touch screen.
fn put_mode(s: Sheet, at: usize, out: &mut [u8]) -> usize {
    let at = put_case(s.orientation, at, out);
    let at = put_case(s.ui_mode, at, out);
    let at = put_case(s.ui_mode_night, at, out);
    let at = put_case(s.density, at, out);
    put_case(s.touchscreen, at, out)
}

// Puts the kinds of keys and navigation.
fn put_input(s: Sheet, at: usize, out: &mut [u8]) -> usize {
    let at = put_case(s.keys_hidden, at, out);
    let at = put_case(s.keyboard, at, out);
    let at = put_case(s.nav_hidden, at, out);
    put_case(s.navigation, at, out)
}
