//! Tests of the configurations of tracks: their defaults, their clones and how they print.

use mp4_stream::{
    AacConfig, AudioObjectType, AvcConfig, ChannelConfig, Entries, Error, HevcConfig, MediaConfig,
    SampleFreqIndex, TryClone, TtxtConfig, Vp9Config,
};
use std::alloc::Global;
use std::fmt::Debug;
use test_shared::helpers::debug_text;
use test_shared::made;

/// Returns whether `avc` has no width, no height and no parameter sets.
fn is_empty(avc: AvcConfig) -> bool {
    avc.width == 0
        && avc.height == 0
        && avc.seq_param_set.is_empty()
        && avc.pic_param_set.is_empty()
}

/// Returns whether the default configurations that need no memory equal those of the Rust crate.
fn defaults_are_known() -> bool {
    let (width, height) = (0, 0);
    let aac = AacConfig {
        bitrate: 0,
        profile: AudioObjectType::AacLowComplexity,
        freq_index: SampleFreqIndex::Freq48000,
        chan_conf: ChannelConfig::Stereo,
    };
    HevcConfig::default() == (HevcConfig { width, height })
        && Vp9Config::default() == (Vp9Config { width, height })
        && TtxtConfig::default() == (TtxtConfig {})
        && AacConfig::default() == aac
}

#[test]
fn default_configurations(rt: HostRuntime) {
    assert!(rt; is_empty(AvcConfig::default_in(rt.alloc())) && defaults_are_known());
}

fn avc_config(alloc: Global) -> Result<AvcConfig, Error> {
    Ok(AvcConfig {
        width: 320,
        height: 240,
        seq_param_set: Entries::from(vec![in alloc; 0x67, 100, 0, 13]?),
        pic_param_set: Entries::from(vec![in alloc; 0x68]?),
    })
}

/// Returns whether `Debug` prints `value` as `expected`.
fn is_printed<T: Debug>(alloc: Global, value: &T, expected: &str) -> bool {
    match debug_text(alloc, value) {
        Ok(text) => text.as_str() == expected,
        Err(_) => false,
    }
}

/// Returns whether `Debug` prints the configuration in `made` as `expected`.
fn is_made_and_printed(alloc: Global, made: Result<AvcConfig, Error>, expected: &str) -> bool {
    match made {
        Ok(avc) => is_printed(alloc, &avc, expected),
        Err(_) => false,
    }
}

/// Returns whether `Debug` prints the configuration of a text track as `expected`.
fn text_is_printed(alloc: Global, expected: &str) -> bool {
    is_printed(alloc, &MediaConfig::TtxtConfig(TtxtConfig {}), expected)
}

#[test]
fn configurations_are_printed(rt: HostRuntime) {
    let alloc = rt.alloc();
    let avc =
        "AvcConfig { width: 320, height: 240, seq_param_set: [103, 100, 0, 13], pic_param_set: [104] }";
    assert!(rt;
        is_printed(alloc, &TtxtConfig {}, "TtxtConfig")
            && is_printed(
                alloc,
                &Vp9Config::default(),
                "Vp9Config { width: 0, height: 0 }"
            )
            && is_made_and_printed(alloc, avc_config(alloc), avc)
            && text_is_printed(alloc, "TtxtConfig(TtxtConfig)")
    );
}

/// Returns whether the answer of `==` to `made` and the default configuration is `expected`.
fn is_default(alloc: Global, made: Result<AvcConfig, Error>, expected: bool) -> bool {
    match made {
        Ok(made) => (made == AvcConfig::default_in(alloc)) == expected,
        Err(_) => false,
    }
}

/// Returns the AVC configuration of the test as the configuration of a track.
fn media_config(alloc: Global) -> Result<MediaConfig, Error> {
    Ok(MediaConfig::AvcConfig(avc_config(alloc)?))
}

fn hevc_config() -> MediaConfig {
    MediaConfig::HevcConfig(HevcConfig {
        width: 320,
        height: 240,
    })
}

fn vp9_config() -> MediaConfig {
    MediaConfig::Vp9Config(Vp9Config {
        width: 1920,
        height: 1080,
    })
}

fn aac_config() -> MediaConfig {
    MediaConfig::AacConfig(AacConfig {
        bitrate: 67695,
        ..AacConfig::default()
    })
}

/// Returns whether the configuration in `made` has a clone that is equal to it.
fn is_cloned<T: TryClone + PartialEq + Drop>(made: Result<T, Error>) -> bool {
    made::cloned(made).is_ok()
}

/// Returns whether `original` has a clone that is equal to it.
fn is_clone_equal(original: MediaConfig) -> bool {
    made::clone_of(&original).is_ok()
}

/// Returns whether configurations of all kinds are equal to their clones.
fn are_cloned(alloc: Global) -> bool {
    is_cloned(avc_config(alloc))
        && is_cloned(media_config(alloc))
        && is_clone_equal(hevc_config())
        && is_clone_equal(vp9_config())
        && is_clone_equal(aac_config())
        && is_clone_equal(MediaConfig::TtxtConfig(TtxtConfig {}))
}

#[test]
fn configurations_are_compared_and_cloned(rt: HostRuntime) {
    let alloc = rt.alloc();
    assert!(rt;
        is_default(alloc, avc_config(alloc), false)
            && is_default(alloc, Ok(AvcConfig::default_in(alloc)), true)
            && are_cloned(alloc)
    );
}
